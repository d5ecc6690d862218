//! The items that both sides make equal: a line each, whose first word is its name.

use std::str;

/// The most bytes of a message.
pub const LONGEST: usize = 64;

/// The most items that one side takes of the other.
pub const MOST: u32 = 100;

/// What the side has that listens.
pub const LISTENING: &str = "apple red\npear green\nplum blue";

/// What the side has that connects.
pub const CONNECTING: &str = "pear green\nquince yellow\nrowan orange";

/// The name of an item.
pub fn name_of(item: &str) -> &str {
    item.split_once(' ').map_or(item, |(name, _)| name)
}

/// The item of this name.
pub fn find<'a>(items: &'a str, name: &[u8]) -> Option<&'a str> {
    items.lines().find(|item| name_of(item).as_bytes() == name)
}

/// The item that a message of another process is, if it may be one and neither list has its name.
pub fn checked<'a>(message: &'a [u8], items: &str, collected: &str) -> Option<&'a str> {
    let item = str::from_utf8(message).ok()?;
    let name = name_of(item).as_bytes();
    let is_text = message.iter().all(|byte| (b' '..=b'~').contains(byte));
    let is_new = find(items, name).is_none() && find(collected, name).is_none();
    (is_text && is_new).then_some(item)
}
