//! The site's record.
use controller::Controller;

/// Seven controller records, of which a step alters one at most, and the sizes that the site was
/// made with. `pool` is how many messages the pool can hold, and `count` how many it has.
/// `made` is a flag, and the rest no `Option`: what is read off a site before it is made is 0, and every
/// definition names the fields without a case. Books and pool are the caller's slices, so lengths stand
/// in the records, and the count here. It is not copied: who put an old copy back would leave the guarantee.
#[derive(Drop, PartialEq, Eq, Debug)]
pub struct Site {
    pub(crate) made: bool,
    pub(crate) n: u16,
    pub(crate) cap: u16,
    pub(crate) pool: u16,
    pub(crate) count: u16,
    pub(crate) rows: [Controller; 7],
}
