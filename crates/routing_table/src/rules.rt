// The rules of a table, one pass for each.
ghost use Rattle.std.specs.Prelude.{◌≡◌, ◌&&◌};
ghost use Rattle.std.specs.List.{list_all};
ghost use Rattle.routing_table.specs.Good.{none_over, each_full, record_fits, sized, sound_entry};

use crate::{Contact, ENTRIES_EACH, Entry, FAILURES, RECORD, REPLACEMENTS_EACH, scans};

// Whether a node record may have so many bytes: 1 to 300.
pub fn record_fits(len: usize) -> bool
    ensures { result ≡ record_fits len }
{
    (1..=RECORD).contains(&len)
}

// Whether failures and records keep the rules.
pub(crate) fn sound<'a>(entries: &'a [Entry], replacements: &'a [Contact]) -> bool
    ensures { result ≡ (list_all sound_entry entries.now && list_all sized replacements.now) }
{
    sound_entries(entries) && sized_replacements(replacements)
}

// Whether each entry has at most three failures, and a record that fits.
fn sound_entries(entries: &[Entry]) -> bool
    ensures { result ≡ list_all sound_entry entries.now }
{
    entries.iter().all(|entry| entry.failures <= FAILURES && record_fits(entry.contact.len))
}

// Whether each replacement has a record that fits.
fn sized_replacements(replacements: &[Contact]) -> bool
    ensures { result ≡ list_all sized replacements.now }
{
    replacements
        .iter()
        .all(|replacement| record_fits(replacement.len))
}

// Whether the log distances of entries and replacements keep the rules.
pub(crate) fn fit<'a>(entries: &'a [u16], replacements: &'a [u16]) -> bool
    ensures { result ≡ (none_over 16 entries.now && none_over 4 replacements.now && each_full entries.now replacements.now) }
{
    none_over(ENTRIES_EACH, entries)
        && none_over(REPLACEMENTS_EACH, replacements)
        && each_full(entries, replacements)
}

// Whether no log distance stands more than `most` times in the list.
fn none_over(most: usize, logs: &[u16]) -> bool
    ensures { result ≡ none_over most logs.now }
{
    logs.iter().all(|d| scans::count(logs, *d) <= most)
}

// Whether each log distance of the replacements has 16 entries.
fn each_full<'a>(entries: &'a [u16], replacements: &'a [u16]) -> bool
    ensures { result ≡ each_full entries.now replacements.now }
{
    replacements
        .iter()
        .all(|d| ENTRIES_EACH <= scans::count(entries, *d))
}
