//! The words after the command, cut into items: an option with its value, or a word by itself.

ghost use Rattle.std.specs.Prelude.{◌≡◌, ◌<◌, [], ◌∷◌, IfSome, MatchOption, length, map, string_bytes};
ghost use Rattle.rz_request.specs.Items.{AreStated, after_equals, before_equals, is_kind as same_kind, item, items, option_named, values};

/// What kind of item it is.
#[derive(Clone, Copy)]
pub enum ItemKind {
    /// The option for the number of disks.
    Disks,
    /// The option for the folder.
    Folder,
    /// A word by itself.
    Plain,
}

/// An item, and the text that it states.
#[derive(Clone, Copy)]
pub struct Item<'a> {
    pub kind: ItemKind,
    pub text: &'a str,
}

/// The option that a name is that of.
fn named(name: &str) -> Option<ItemKind>
    ensures { result ≡ option_named name.now }
{
    if name == "--disks" {
        return Some(ItemKind::Disks);
    }
    if name == "--dir" {
        return Some(ItemKind::Folder);
    }
    None
}

/// What stands before the first `=` of a word, and what stands after it; nothing stands after the
/// end of a word without one.
fn cut(word: &str) -> (&str, &str)
    ensures name { result.0.now ≡ before_equals word.now }
    ensures value { result.1.now ≡ after_equals word.now }
{
    match word.split_once('=') {
        Some(parts) => parts,
        None => (word, ""),
    }
}

/// The item that one word spells: an option with its value behind `=`, or a word by itself.
fn item_of(word: &str) -> Item<'_>
    ensures { (result.kind, result.text.now) ≡ item word.now }
{
    let (name, value) = cut(word);
    match named(name) {
        Some(kind) => Item { kind, text: value },
        None => Item {
            kind: ItemKind::Plain,
            text: word,
        },
    }
}

/// The first item, and the words after it.
fn first_item(words: &[String]) -> Option<(Item<'_>, &[String])>
    ensures item { MatchOption result (words.now ≡ []) (λ p. items (map string_bytes words.now) ≡ (p.0.kind, p.0.text.now) ∷ items (map string_bytes p.1.now)) }
    ensures shorter { IfSome result (λ p. length p.1.now < length words.now) }
{
    let (word, after) = words.split_first()?;
    let word = word.as_str();
    let Some((value, rest)) = after.split_first() else {
        return Some((item_of(word), after));
    };
    match named(word) {
        Some(kind) => {
            let text = value.as_str();
            Some((Item { kind, text }, rest))
        }
        None => Some((item_of(word), after)),
    }
}

/// Whether two kinds are the same.
fn is_kind(kind: ItemKind, other: ItemKind) -> bool
    ensures { result ≡ same_kind kind other }
{
    match (kind, other) {
        (ItemKind::Disks, ItemKind::Disks) => true,
        (ItemKind::Folder, ItemKind::Folder) => true,
        (ItemKind::Plain, ItemKind::Plain) => true,
        _ => false,
    }
}

/// The text that the items of a kind state, if there is one of them, and nothing where there are
/// more.
pub fn stated(words: &[String], kind: ItemKind) -> Option<Option<&str>>
    ensures { AreStated result (values kind (items (map string_bytes words.now))) }
{
    let mut found = None;
    let mut rest = words;
    'items: while let Some((item, after)) = first_item(rest) {
        rest = after;
        if is_kind(item.kind, kind) {
            if let Some(_) = found {
                return None;
            }
            found = Some(item.text);
        }
    }
    Some(found)
}
