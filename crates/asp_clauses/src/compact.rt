//! Removing clauses in place, from one of them on: those that stay keep their order, and no number is left out. The
//! clauses before that one aren't touched, so it takes no longer for them.

ghost use Rattle.std.specs.Prelude.{◌≡◌, ℕ, ◌+◌, ◌<◌, ◌≤◌, ◌||◌, ◌^◌, true, not, length, map, take, slice_set, slice_index, if◌then◌else◌};
ghost use Rattle.asp_clauses.specs.Records.{row_at, literals_of, end, AreLong};
ghost use Rattle.asp_clauses.specs.Watches.{AreWatches, IsStore, HaveKinds};
ghost use Rattle.asp_clauses.specs.Visits.{IsUnlinked};
ghost use Rattle.asp_clauses.specs.Kept.{kept, new_number, mark_of, kind_at, is_firm, is_kept, from_on, AreFirmBelow, AreNumbered};

use crate::kind::Kind;
use crate::records::{END, LINKS, Records};
use crate::watches::Watches;

/// Has the clauses stay that weren't learned.
pub fn keep_added(stays: &mut [bool], kinds: &[Kind])
    requires { length kinds.now ≡ length stays.old }
    ensures as_many { length stays.new ≡ length stays.old }
    ensures added { (clause : ℕ) → clause < length stays.old
        → mark_of stays.new clause ≡ (mark_of stays.old clause || not (kind_at kinds.now clause).learned) }
{
    for clause in 0..stays.len() {
        if !kinds[clause].learned {
            stays[clause] = true;
        }
    }
}

/// Numbers the clauses that stay, each in its record in place of a link, so none of them is to stand in a list.
pub fn number_clauses(watches: &mut Watches, stays: &[bool])
    requires store { IsStore watches.old }
    requires marks { length stays.now ≡ length watches.old.records }
    ensures { AreNumbered watches.old watches.new stays.now 0 (length watches.old.records) }
{
    let mut next = 0;
    for clause in 0..watches.records.len() {
        next = number_clause(watches, clause, stays[clause as usize], next);
    }
}

/// Numbers the firm clauses from the clause `from` on, before which all are firm.
pub fn number_firm(watches: &mut Watches, kinds: &[Kind], from: u32)
    requires store { IsStore watches.old }
    requires kinds { HaveKinds watches.old kinds.now }
    requires from { from ≤ length kinds.now }
    requires firm { AreFirmBelow kinds.now from }
    ensures { AreNumbered watches.old watches.new (map is_firm kinds.now) from (length watches.old.records) }
{
    let mut next = from;
    for clause in from..watches.records.len() {
        next = number_clause(watches, clause, !kinds[clause as usize].loose, next);
    }
}

/// Numbers a clause if it stays, and answers the next number.
fn number_clause(watches: &mut Watches, clause: u32, stays: bool, next: u32) -> u32
    requires store { IsStore watches.old }
    requires clause { clause < length watches.old.records }
    requires next { next < end }
    ensures records { watches.new ≡ record watches.old {
      records = slice_set watches.old.records clause
          (slice_set (row_at watches.old.records clause) 1 (if stays then next else end));
    } }
    ensures next { result ≡ if stays then next + 1 else next }
{
    if !stays {
        watches.records.set_link(clause, 0, END);
        return next;
    }
    watches.records.set_link(clause, 0, next);
    next + 1
}

/// Removes the clauses without a number from the clause `from` on, none of which is watched, and has those watched that
/// are left of the first clauses, as many as `watched`.
pub fn compact(watches: &mut Watches, kinds: &mut Vec<Kind>, from: u32, watched: u32)
    requires watches { AreWatches watches.old }
    requires kinds { HaveKinds watches.old kinds.old.items }
    requires from { from ≤ length watches.old.records }
    requires unwatched { watches.old.watched ≤ from }
    requires more { watches.old.watched ≤ watched }
    requires within { watched ≤ length watches.old.records }
    requires not_empty { (clause : ℕ) → clause < watched → 0 < slice_index (row_at watches.old.records clause) 0 }
    ensures watches { AreWatches watches.new }
    ensures atoms { watches.new.atoms ≡ watches.old.atoms }
    ensures clauses { map literals_of watches.new.records
        ≡ kept (from_on from (map is_kept watches.old.records)) (map literals_of watches.old.records) }
    ensures kinds { kinds.new.items ≡ kept (from_on from (map is_kept watches.old.records)) kinds.old.items }
    ensures watched { watches.new.watched ≡ new_number (from_on from (map is_kept watches.old.records)) watched }
{
    let left = count_kept(&watches.records, from, watched);
    keep_kinds(kinds, &watches.records, from);
    watches.records.compact(from);
    watch_first(watches, left);
}

/// How many of the first clauses stay: those before `from`, and those that are numbered.
pub fn count_kept(records: &Records, from: u32, watched: u32) -> u32
    requires within { watched ≤ length records.now }
    requires from { from ≤ length records.now }
    requires rows { AreLong records.now }
    ensures { result ≡ new_number (from_on from (map is_kept records.now)) watched }
{
    if watched <= from {
        return watched;
    }
    let mut count = from;
    for clause in from..watched {
        if records.cell(clause, LINKS) != END {
            count += 1;
        }
    }
    count
}

/// Removes the kinds of the clauses without a number, from the clause `from` on.
fn keep_kinds(kinds: &mut Vec<Kind>, records: &Records, from: u32)
    requires kinds { length kinds.old.items ≡ length records.now }
    requires from { from ≤ length records.now }
    requires rows { AreLong records.now }
    ensures { kinds.new.items ≡ kept (from_on from (map is_kept records.now)) kinds.old.items }
{
    let mut count = from as usize;
    for clause in from..records.len() {
        if records.cell(clause, LINKS) != END {
            kinds[count] = kinds[clause as usize];
            count += 1;
        }
    }
    kinds.truncate(count);
}

/// Has as many of the first clauses watched, of which no more are so far.
fn watch_first(watches: &mut Watches, watched: u32)
    requires watches { AreWatches watches.old }
    requires fewer { watches.old.watched ≤ watched }
    requires within { watched ≤ length watches.old.records }
    requires not_empty { (clause : ℕ) → clause < watched → 0 < slice_index (row_at watches.old.records clause) 0 }
    ensures watches { AreWatches watches.new }
    ensures atoms { watches.new.atoms ≡ watches.old.atoms }
    ensures clauses { map literals_of watches.new.records ≡ map literals_of watches.old.records }
    ensures watched { watches.new.watched ≡ watched }
{
    while watches.watched < watched {
        watches.watch();
    }
}

/// Has no clause watched from this one on. A clause is sought in the lists of its two watches, from the newest on.
pub fn unwatch_from(watches: &mut Watches, from: u32)
    requires watches { AreWatches watches.old }
    ensures watches { AreWatches watches.new }
    ensures unlinked { IsUnlinked watches.old watches.new }
    ensures within { watches.new.watched ≤ from }
{
    while watches.watched > from {
        watches.unwatch();
    }
}
