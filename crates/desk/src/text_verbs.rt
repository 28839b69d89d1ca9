// The verbs that take something else than a plan file: a text, a listing, a day.
use crate::{calendar_verb, import_verb, pack_verb};

pub(crate) const IMPORT: u8 = 0;

pub(crate) const PACK: u8 = 1;

pub(crate) const CALENDAR: u8 = 2;

pub(crate) fn run(rt: HostRuntime, verb: u8) {
    match verb {
        0 => import_verb::run(rt),
        1 => pack_verb::run(rt),
        2..=255 => calendar_verb::run(rt),
    }
}
