//! The reading of a description, from the top down.

ghost use Rattle.std.specs.Prelude.{◌≡◌, ◌≤◌, [], Some, codes, map, option_map, string_bytes};
ghost use Rattle.serde_json.specs.Data.{depth};
ghost use Rattle.serde_json.specs.Read.{max_depth};
ghost use Rattle.serde_json.specs.Find.{get};
ghost use Rattle.serde_json.specs.View.{view, items_view, members_view};
ghost use Rattle.rz_store_file.specs.Answers.{Gives};
ghost use Rattle.rz_store_file.specs.Described.{is_key, unknown_key, object_of, volume_at, text_at, texts_from, texts_at, journal_at, described_store, store_of_text};

use crate::{DiskPlace, StoreFault, StoreFile, StoreFileError, StoreKey};
use rz_config::{Volume, VolumeError};
use rz_events::Text;
use serde_json::{Map, Value};
use std::alloc::Global;

fn is_key(key: &str) -> bool
    ensures { result ≡ is_key key.now }
{
    key == "volume" || key == "disks" || key == "journal"
}

/// The first key in byte order that a description does not have.
fn unknown_key(members: &Map<String, Value>) -> Option<&String>
    ensures { option_map (λ k. string_bytes k.now) result ≡ unknown_key (members_view members.now.entries) }
{
    for key in members.keys() {
        if !is_key(key.as_str()) {
            return Some(key);
        }
    }
    None
}

/// An object with none but the keys of a description.
#[tactic(auto, unfolding(crate::specs::Described::object_of))]
fn read_object(alloc: Global, value: &Value) -> Result<(), StoreFileError>
    ensures { Gives (λ u. u) result (object_of (view value.now)) }
{
    let Some(members) = value.as_object() else {
        return Err(StoreFileError::Refused(StoreFault::NotObject));
    };
    match unknown_key(members) {
        Some(key) => {
            let key = Text::from_bytes(alloc, key.as_bytes())?;
            Err(StoreFileError::Refused(StoreFault::UnknownKey(key)))
        }
        None => Ok(()),
    }
}

/// The volume that a value describes.
fn read_volume_value(alloc: Global, value: &Value) -> Result<Volume, StoreFileError>
    requires { depth (view value.now) ≤ max_depth }
    ensures { Gives (λ v. v) result (volume_at (Some (view value.now))) }
{
    let text = value.to_string(alloc)?;
    match Volume::read(alloc, text.as_str()) {
        Ok(volume) => Ok(volume),
        Err(VolumeError::NoMemory) => Err(StoreFileError::NoMemory),
        Err(VolumeError::Refused(fault)) => Err(StoreFileError::Refused(StoreFault::Volume(fault))),
    }
}

/// The volume of a description.
fn read_volume(alloc: Global, value: &Value) -> Result<Volume, StoreFileError>
    requires { depth (view value.now) ≤ max_depth }
    ensures { Gives (λ v. v) result (volume_at (get (codes "volume") (view value.now))) }
{
    match value.get("volume") {
        Some(volume) => read_volume_value(alloc, volume),
        None => Err(StoreFileError::Refused(StoreFault::Missing(StoreKey::Volume))),
    }
}

/// The path of a disk.
fn read_path(alloc: Global, place: DiskPlace, value: &Value) -> Result<String, StoreFileError>
    ensures { Gives string_bytes result (text_at place (view value.now)) }
{
    match value.as_str() {
        Some(path) => Ok(String::from_str(alloc, path)?),
        None => Err(StoreFileError::Refused(StoreFault::NotText(place))),
    }
}

/// The paths of the nodes' disks.
#[tactic(auto, unfolding(crate::specs::Described::texts_from))]
fn read_paths(alloc: Global, items: &[Value]) -> Result<Vec<String>, StoreFileError>
    ensures { Gives (λ v. map string_bytes v.items) result (texts_from 0 [] (items_view items.now)) }
{
    let mut paths = Vec::new(alloc);
    for i in 0..items.len() {
        paths.reserve(1)?;
        let path = read_path(alloc, DiskPlace::Node(i), &items[i])?;
        paths.push_reserved(path);
    }
    Ok(paths)
}

/// The list of these paths.
fn read_disks(alloc: Global, value: &Value) -> Result<Vec<String>, StoreFileError>
    ensures { Gives (λ v. map string_bytes v.items) result (texts_at (get (codes "disks") (view value.now))) }
{
    let Some(disks) = value.get("disks") else {
        return Err(StoreFileError::Refused(StoreFault::Missing(StoreKey::Disks)));
    };
    match disks.as_array() {
        Some(items) => read_paths(alloc, items),
        None => Err(StoreFileError::Refused(StoreFault::NotList)),
    }
}

/// The path of the journal's disk.
fn read_journal(alloc: Global, value: &Value) -> Result<String, StoreFileError>
    ensures { Gives string_bytes result (journal_at (get (codes "journal") (view value.now))) }
{
    match value.get("journal") {
        Some(journal) => read_path(alloc, DiskPlace::Journal, journal),
        None => Err(StoreFileError::Refused(StoreFault::Missing(StoreKey::Journal))),
    }
}

/// The store that a value describes.
#[tactic(auto, unfolding(crate::specs::Described::described_store))]
fn read_store(alloc: Global, value: &Value) -> Result<StoreFile, StoreFileError>
    requires { depth (view value.now) ≤ max_depth }
    ensures { Gives (λ s. s) result (described_store (view value.now)) }
{
    read_object(alloc, value)?;
    let volume = read_volume(alloc, value)?;
    let disks = read_disks(alloc, value)?;
    let journal = read_journal(alloc, value)?;
    match StoreFile::new(volume, disks, journal) {
        Ok(store) => Ok(store),
        Err(fault) => Err(StoreFileError::Refused(fault)),
    }
}

impl StoreFile {
    /// The store that a text describes, or the first fault.
    #[tactic(auto, unfolding(crate::specs::Described::store_of_text))]
    pub fn read(alloc: Global, text: &str) -> Result<StoreFile, StoreFileError>
        ensures { Gives (λ s. s) result (store_of_text text.now) }
    {
        match Value::from_str(alloc, text) {
            Ok(value) => read_store(alloc, &value),
            Err(error) if error.is_memory() => Err(StoreFileError::NoMemory),
            Err(_) => Err(StoreFileError::Refused(StoreFault::NotJson)),
        }
    }
}
