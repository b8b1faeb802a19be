//! The line that makes the site.
use crate::script::Said;
use crate::troubles::Expected;
use crate::words::Words;

/// The form of the line.
pub const FORM: Expected = Expected::Words(
    "site KIND N CAP POOL tray W or site KIND N CAP POOL strip BYTES, with cards or hours as KIND and numbers from 0 to 65535",
);

#[derive(Clone, Copy)]
pub enum Store {
    /// the writes left of each cell
    Tray { left: u16 },
    Strip { bytes: u16 },
}

#[derive(Clone, Copy)]
pub enum KindName {
    Cards,
    Hours,
}

/// What the line says.
#[derive(Clone, Copy)]
pub struct Setup {
    pub kind: KindName,
    pub n: u16,
    pub cap: u16,
    pub room: u16,
    pub store: Store,
}

fn read_kind(words: &mut Words) -> Option<KindName> {
    match words.next()? {
        "cards" => Some(KindName::Cards),
        "hours" => Some(KindName::Hours),
        _ => None,
    }
}

fn read_store(words: &mut Words) -> Option<Store> {
    match words.next()? {
        "tray" => Some(Store::Tray {
            left: words.number()?,
        }),
        "strip" => Some(Store::Strip {
            bytes: words.number()?,
        }),
        _ => None,
    }
}

/// The first line that says something.
impl Said for Setup {
    fn read(first: &str, words: &mut Words) -> Option<Setup> {
        if first != "site" {
            return None;
        }
        Some(Setup {
            kind: read_kind(words)?,
            n: words.number()?,
            cap: words.number()?,
            room: words.number()?,
            store: read_store(words)?,
        })
    }

    fn form(_first: &str) -> Expected {
        FORM
    }
}
