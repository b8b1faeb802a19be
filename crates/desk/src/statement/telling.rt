//! What happened, in plain words.
use super::{Heard, Statement};
use crate::spelling::Spelled;
use crate::views::Dotted;
use entries::Question;
use site::Site;
use std::io::Write;
use std::{fmt, io};

// The controllers of a site that are up, or those that are down.
#[derive(Clone, Copy)]
struct Roll<'a> {
    site: &'a Site,
    up: bool,
}

impl fmt::Display for Roll<'_> {
    fn fmt<W: fmt::Write>(&self, f: &mut fmt::Formatter<W>) -> fmt::Result {
        let mut listed = (0..self.site.n()).filter(|c| self.site.controller(*c).is_up() == self.up);
        let Some(first) = listed.next() else {
            return write!(f, "none");
        };
        write!(f, "{first}")?;
        for c in listed {
            write!(f, ", {c}")?;
        }
        Ok(())
    }
}

// What follows the noun of so many.
fn were(count: u64) -> &'static str {
    if count == 1 { " was" } else { "s were" }
}

impl Statement {
    fn tell_steps<O: Write>(&self, out: &mut O) -> io::Result<()> {
        let taken = self.taken;
        let were = were(taken);
        let refused = self.refused;
        writeln!(out, "= {taken} step{were} taken and {refused} refused.")
    }

    fn tell_changes<O: Write>(&self, out: &mut O) -> io::Result<()> {
        let handed = self.fates.handed;
        let were = were(handed);
        let confirmed = self.fates.confirmed;
        let lost = self.fates.lost;
        let waiting = self.fates.waiting();
        writeln!(
            out,
            "= {handed} change{were} handed out: {confirmed} confirmed, {lost} lost, {waiting} still waiting."
        )
    }

    fn tell_views<O: Write>(&self, out: &mut O) -> io::Result<()> {
        writeln!(out, "= View 0.0 was opened as the site was made.")?;
        for opening in self.opened.iter() {
            let view = Dotted(opening.view);
            let by = opening.by.number;
            writeln!(out, "= View {view} was opened by controller {by}.")?;
        }
        Ok(())
    }

    fn tell_lookups<O: Write>(&self, out: &mut O) -> io::Result<()> {
        if self.heard.iter().all(|heard| heard.is_none()) {
            return writeln!(out, "= Nothing was looked up.");
        }
        for (i, heard) in self.heard.iter().enumerate() {
            let Some(Heard { question, answer }) = *heard else {
                continue;
            };
            let Question { first, second } = question;
            let said = answer.word();
            writeln!(
                out,
                "= The last lookup at controller {i} said {said} of ({first}, {second})."
            )?;
        }
        Ok(())
    }

    /// The statement on a site as it is now.
    pub fn tell<O: Write>(&self, out: &mut O, site: &Site) -> io::Result<()> {
        self.tell_steps(out)?;
        if !site.is_ready() {
            return writeln!(out, "= The site was not made.");
        }
        self.tell_changes(out)?;
        self.tell_views(out)?;
        let up = Roll { site, up: true };
        let down = Roll { site, up: false };
        writeln!(out, "= Up: {up}. Down: {down}.")?;
        self.tell_lookups(out)
    }
}
