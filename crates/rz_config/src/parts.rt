//! The parts of a description: objects, numbers and lists at a path.

ghost use Rattle.std.specs.Prelude.{◌≡◌, ◌≤◌, ◌++◌, option_map, IfOk, codes, string_bytes};
ghost use Rattle.serde_json.specs.Find.{get};
ghost use Rattle.serde_json.specs.View.{view, items_view, members_view};
ghost use Rattle.rz_config.specs.Answers.{Gives, Fails};
ghost use Rattle.rz_config.specs.Described.{is_key, fails, object_at, number_at, number_within, list_at, unknown_key, at_key, at_index};

use crate::{Text, VolumeCause, VolumeError, VolumeFault};
use serde_json::{Map, Value};
use std::alloc::{AllocError, Global};

/// The kinds of objects in a description.
#[derive(Clone, Copy)]
pub enum ObjectKind {
    Volume,
    Cluster,
    Node,
}

/// The fault at a path, unless memory runs out.
pub fn fault(alloc: Global, path: &str, cause: VolumeCause) -> VolumeError
    ensures { Fails result (fails {A = Unit {0}} path.now cause) }
{
    match Text::from_bytes(alloc, path.as_bytes()) {
        Ok(path) => VolumeError::Refused(VolumeFault { path, cause }),
        Err(_) => VolumeError::NoMemory,
    }
}

/// A whole number of 64 bits.
#[tactic(auto, unfolding(crate::specs::Described::number_at))]
pub fn read_number(alloc: Global, path: &str, value: Option<&Value>) -> Result<u64, VolumeError>
    ensures { Gives (λ n. n) result (number_at path.now (option_map (λ v. view v.now) value.entry)) }
{
    let Some(value) = value else {
        return Err(fault(alloc, path, VolumeCause::Missing));
    };
    match value.as_u64() {
        Some(n) => Ok(n),
        None => Err(fault(alloc, path, VolumeCause::NotNumber)),
    }
}

/// A number from `low` to `high`.
#[tactic(auto, unfolding(crate::specs::Described::number_within))]
pub fn read_number_within(
    alloc: Global,
    path: &str,
    low: u64,
    high: u64,
    value: Option<&Value>,
) -> Result<u64, VolumeError>
    ensures value { Gives (λ n. n) result (number_within path.now low high (option_map (λ v. view v.now) value.entry)) }
    ensures low { IfOk result (λ n. low ≤ n) }
    ensures high { IfOk result (λ n. n ≤ high) }
{
    let n = read_number(alloc, path, value)?;
    if n < low || high < n {
        return Err(fault(alloc, path, VolumeCause::OutOfRange));
    }
    Ok(n)
}

/// A list of `least` to `most` items; where there are fewer, the cause is `few`.
#[tactic(auto, using(crate::proofs::Keys::item_count_view), unfolding(crate::specs::Described::list_at))]
pub fn read_list<'a>(
    alloc: Global,
    path: &str,
    least: usize,
    few: VolumeCause,
    most: usize,
    value: Option<&'a Value>,
) -> Result<&'a Vec<Value>, VolumeError>
    ensures { Gives (λ v. items_view v.now.items) result (list_at path.now least few most (option_map (λ v. view v.now) value.entry)) }
{
    let Some(value) = value else {
        return Err(fault(alloc, path, VolumeCause::Missing));
    };
    let Some(list) = value.as_array() else {
        return Err(fault(alloc, path, VolumeCause::NotList));
    };
    if list.len() < least {
        return Err(fault(alloc, path, few));
    }
    if most < list.len() {
        return Err(fault(alloc, path, VolumeCause::TooMany));
    }
    Ok(list)
}

fn is_key(kind: ObjectKind, key: &str) -> bool
    ensures { result ≡ is_key kind key.now }
{
    match kind {
        ObjectKind::Volume => key == "layout" || key == "bsize" || key == "clusters",
        ObjectKind::Cluster => key == "cid" || key == "nodes",
        ObjectKind::Node => key == "sid" || key == "cells",
    }
}

/// The first key in byte order that the kind does not have.
fn unknown_key(kind: ObjectKind, members: &Map<String, Value>) -> Option<&String>
    ensures { option_map (λ k. string_bytes k.now) result ≡ unknown_key kind (members_view members.now.entries) }
{
    for key in members.keys() {
        if !is_key(kind, key.as_str()) {
            return Some(key);
        }
    }
    None
}

fn dotted(alloc: Global, path: &str, key: &str) -> Result<String, AllocError>
    ensures { IfOk result (λ s. string_bytes s ≡ path.now ++ codes "." ++ key.now) }
{
    format!(in alloc; "{path}.{key}")
}

/// The path of a member of the object at `path`.
pub fn key_path(alloc: Global, path: &str, key: &str) -> Result<String, AllocError>
    ensures { IfOk result (λ s. string_bytes s ≡ at_key path.now key.now) }
{
    if path.is_empty() {
        return format!(in alloc; "{key}");
    }
    dotted(alloc, path, key)
}

/// The path of an item of the list at `path`.
pub fn index_path(alloc: Global, path: &str, i: usize) -> Result<String, AllocError>
    ensures { IfOk result (λ s. string_bytes s ≡ at_index path.now i) }
{
    format!(in alloc; "{path}[{i}]")
}

/// The fault at a member of the object at `path`, unless memory runs out.
pub fn fault_at(alloc: Global, path: &str, key: &str, cause: VolumeCause) -> VolumeError
    ensures { Fails result (fails {A = Unit {0}} (at_key path.now key.now) cause) }
{
    match key_path(alloc, path, key) {
        Ok(path) => fault(alloc, path.as_str(), cause),
        Err(_) => VolumeError::NoMemory,
    }
}

/// The number from `low` to `high` that is a member of the object at `path`.
pub fn read_member(
    alloc: Global,
    path: &str,
    key: &str,
    low: u64,
    high: u64,
    object: &Value,
) -> Result<u64, VolumeError>
    ensures value { Gives (λ n. n) result (number_within (at_key path.now key.now) low high (get key.now (view object.now))) }
    ensures low { IfOk result (λ n. low ≤ n) }
    ensures high { IfOk result (λ n. n ≤ high) }
{
    let path = key_path(alloc, path, key)?;
    read_number_within(alloc, path.as_str(), low, high, object.get(key))
}

/// An object with none but the keys of its kind.
#[tactic(auto, unfolding(crate::specs::Described::object_at))]
pub fn read_object(
    alloc: Global,
    path: &str,
    kind: ObjectKind,
    value: &Value,
) -> Result<(), VolumeError>
    ensures { Gives (λ u. u) result (object_at path.now kind (view value.now)) }
{
    let Some(members) = value.as_object() else {
        if path.is_empty() {
            return Err(fault(alloc, ".", VolumeCause::NotObject));
        }
        return Err(fault(alloc, path, VolumeCause::NotObject));
    };
    match unknown_key(kind, members) {
        Some(key) => Err(fault_at(alloc, path, key.as_str(), VolumeCause::UnknownKey)),
        None => Ok(()),
    }
}
