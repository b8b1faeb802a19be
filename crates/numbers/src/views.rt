//! Places, view counts, controller numbers, views and stamps. Their fields are public, since
//! memory that a caller lends may hold any numbers; `try_from` and `new` make only what keeps its
//! range.
ghost use Rattle.std.specs.Prelude.{◌≡◌, if◌then◌else◌, ◌&&◌, ◌+◌, ◌*◌, nat_le, Ok, Err};
ghost use Rattle.numbers.specs.Refusals.{refusal};

use crate::refusals::Refusal;

/// A position in a book, from 1 to 65,535.
#[derive(Clone, Copy, PartialEq, Eq, PartialOrd, Ord, Debug)]
pub struct Place {
    pub number: u16,
}

/// The count of a view, from 0 to 16,383.
#[derive(Clone, Copy, PartialEq, Eq, PartialOrd, Ord, Debug)]
pub struct ViewCount {
    pub number: u16,
}

/// The number of a controller, from 0 to 6.
#[derive(Clone, Copy, PartialEq, Eq, PartialOrd, Ord, Debug)]
pub struct ControllerNumber {
    pub number: u16,
}

/// A view: one configuration of the site, with one primary. The later view has the larger count
/// or, of equal counts, the larger controller.
#[derive(Clone, Copy, PartialEq, Eq, PartialOrd, Ord, Debug)]
pub struct View {
    pub count: ViewCount,
    pub controller: ControllerNumber,
}

/// A stamp names one entry: the view that it was taken in, and its place.
#[derive(Clone, Copy, PartialEq, Eq, PartialOrd, Ord, Debug)]
pub struct Stamp {
    pub view: View,
    pub place: Place,
}

// The number, if it is within its range.
fn within(number: u16, least: u16, most: u16) -> Result<u16, Refusal>
    ensures { result ≡ (if nat_le least number && nat_le number most then Ok number else Err (refusal 17)) }
{
    if least <= number && number <= most {
        Ok(number)
    } else {
        Err(Refusal::BadForm)
    }
}

/// The place of that number; refused at 0.
impl TryFrom<u16> for Place {
    ghost use Rattle.numbers.specs.Views.{place_of, place_ok};

    type Error = Refusal;

    ghost try_from_gives = { λ number r. r ≡ (if place_ok (place_of number) then Ok (place_of number) else Err (refusal 17)) };

    fn try_from(number: u16) -> Result<Place, Refusal> {
        let number = within(number, 1, 65_535)?;
        Ok(Place { number })
    }
}

/// The count of that number; refused above 16,383.
impl TryFrom<u16> for ViewCount {
    ghost use Rattle.numbers.specs.Views.{count_of, count_ok};

    type Error = Refusal;

    ghost try_from_gives = { λ number r. r ≡ (if count_ok (count_of number) then Ok (count_of number) else Err (refusal 17)) };

    fn try_from(number: u16) -> Result<ViewCount, Refusal> {
        let number = within(number, 0, ViewCount::LAST)?;
        Ok(ViewCount { number })
    }
}

/// The controller of that number; refused above 6.
impl TryFrom<u16> for ControllerNumber {
    ghost use Rattle.numbers.specs.Views.{controller_of, controller_ok};

    type Error = Refusal;

    ghost try_from_gives = { λ number r. r ≡ (if controller_ok (controller_of number) then Ok (controller_of number) else Err (refusal 17)) };

    fn try_from(number: u16) -> Result<ControllerNumber, Refusal> {
        let number = within(number, 0, ControllerNumber::LAST)?;
        Ok(ControllerNumber { number })
    }
}

impl ViewCount {
    /// The largest count.
    pub const LAST: u16 = 16_383;
}

impl ControllerNumber {
    /// The first controller, which is primary of the first view.
    pub const ZERO: ControllerNumber = ControllerNumber { number: 0 };

    /// The largest number of a controller.
    pub const LAST: u16 = 6;
}

impl View {
    ghost use Rattle.numbers.specs.Views.{earlier, same_view, view_of, view_ok};

    /// The first view, which make opens.
    pub const ZERO: View = View {
        count: ViewCount { number: 0 },
        controller: ControllerNumber::ZERO,
    };

    /// The view of any two numbers, in range or not, as lent memory may hold it. It asks nothing; `new` asks for the
    /// ranges.
    pub fn of(count: u16, controller: u16) -> View
        ensures { result ≡ view_of count controller }
    {
        View {
            count: ViewCount { number: count },
            controller: ControllerNumber { number: controller },
        }
    }

    /// The view of a count and a controller number; refused where either is out of range.
    pub fn new(count: u16, controller: u16) -> Result<View, Refusal>
        ensures { result ≡ (if view_ok (view_of count controller) then Ok (view_of count controller) else Err (refusal 17)) }
    {
        let count = ViewCount::try_from(count)?;
        let controller = ControllerNumber::try_from(controller)?;
        Ok(View { count, controller })
    }

    /// Whether both numbers are in range.
    pub fn is_ok(self) -> bool
        ensures { result ≡ view_ok self }
    {
        self.count.number <= ViewCount::LAST && self.controller.number <= ControllerNumber::LAST
    }

    // The view as one number, so that two are compared at once: the later view has the larger one.
    pub(crate) fn rank(self) -> u32
        ensures { result ≡ self.count.number * 65536 + self.controller.number }
    {
        self.count.number as u32 * 65_536 + self.controller.number as u32
    }

    /// Whether this view is earlier than the other: `<`, in the rules' word.
    pub fn is_earlier(self, other: View) -> bool
        ensures { result ≡ earlier self other }
    {
        self < other
    }

    /// Whether the two views are one: `==`.
    pub fn is_same(self, other: View) -> bool
        ensures { result ≡ same_view self other }
    {
        self == other
    }
}

impl Stamp {
    ghost use Rattle.numbers.specs.Views.{stamp_of, stamp_ok};

    /// The stamp of a view's two numbers and a place; refused where one is out of range.
    pub fn new(count: u16, controller: u16, place: u16) -> Result<Stamp, Refusal>
        ensures { result ≡ (if stamp_ok (stamp_of count controller place) then Ok (stamp_of count controller place) else Err (refusal 17)) }
    {
        let view = View::new(count, controller)?;
        let place = Place::try_from(place)?;
        Ok(Stamp { view, place })
    }
}
