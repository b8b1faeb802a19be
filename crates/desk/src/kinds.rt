//! What differs between the kinds of change: how a script writes one, and how a report does.
ghost use Rattle.std.specs.Prelude.{◌≡◌, [], ◌∷◌, if◌then◌else◌};

use crate::words::Words;
use entries::{CardChange, HoursChange, Kind};

pub trait Written: Kind {
    /// A change for memory that holds none yet.
    const BLANK: Self;

    /// A line with a change.
    const FORM: &'static str;

    /// The change that the next words say.
    fn read(words: &mut Words) -> Option<Self>;

    /// The three numbers of a change.
    fn numbers(&self) -> [u16; 3];
}

// Whether the next word says that a card is given.
fn given(words: &mut Words) -> Option<bool> {
    match words.next()? {
        "given" => Some(true),
        "withdrawn" => Some(false),
        _ => None,
    }
}

impl Written for CardChange {
    const BLANK: CardChange = CardChange {
        card: 0,
        doors: 0,
        given: false,
    };

    const FORM: &'static str = "change I CARD DOORS given or change I CARD DOORS withdrawn";

    fn read(words: &mut Words) -> Option<CardChange> {
        let card = words.number()?;
        let doors = words.number()?;
        let given = given(words)?;
        Some(CardChange { card, doors, given })
    }

    fn numbers(&self) -> [u16; 3]
        ensures { result ≡ self.now.card ∷ self.now.doors ∷ (if self.now.given then 1 else 0) ∷ [] }
    {
        [self.card, self.doors, u16::from(self.given)]
    }
}

impl Written for HoursChange {
    const BLANK: HoursChange = HoursChange {
        door: 0,
        opening: 0,
        shutting: 0,
    };

    const FORM: &'static str = "change I DOOR OPENING SHUTTING";

    fn read(words: &mut Words) -> Option<HoursChange> {
        let door = words.number()?;
        let opening = words.number()?;
        let shutting = words.number()?;
        Some(HoursChange {
            door,
            opening,
            shutting,
        })
    }

    fn numbers(&self) -> [u16; 3]
        ensures { result ≡ self.now.door ∷ self.now.opening ∷ self.now.shutting ∷ [] }
    {
        [self.door, self.opening, self.shutting]
    }
}
