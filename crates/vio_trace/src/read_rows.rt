// The rows of a trace, read from the front of a text: one line, a number of lines, or all of a section.
ghost use Rattle.std.specs.Prelude.{◌≡◌, ◌↔◌, OnOk, ◌++◌, ◌<◌, All, IfErr, IfNone, IfOk, IfSome, IsTrue, List, ℕ, ◌≤◌, flat_map, length};
ghost use Rattle.vio_trace.specs.Begun.{BeginsFew, BeginsRow, BeginsRows, EachFollows};
ghost use Rattle.vio_trace.specs.Form.{Ascend};
ghost use Rattle.vio_trace.specs.Reading.{FollowsLast, IsLine, NoneBegins, NoneCounted, WhereBad, Without};
ghost use Rattle.vio_trace.specs.Shared.{FirstTells, IsOfSection, KeepsLines, NoneFollows, NoneShares, OnlyShared, WhereBadAt};
ghost use Rattle.vio_trace.specs.Sections.{KeepsApart, NoSection, OnlySection, section};

use crate::fields::place_of;
use crate::lines::Lines;
use crate::read_lines::Line;
use crate::unread::{Fault, Unread};
use std::alloc::Global;
use vio_num::{NoMemory, Sequence};

/// A row of a section of a trace.
pub trait SectionRow: Lines + Sized + Drop {
    ghost before: { Self → Self → Type 0 };

    ghost names_itself: { Self → Type 0 };

    ghost follows: { Self → List ℕ → Type 0 };

    ghost kind: { ℕ };

    /// Whether the next row may stand behind this one.
    fn is_before(&self, next: &Self) -> bool
        ensures { IsTrue result ↔ before self.now next.now };

    /// The row whose lines begin the text, and what is behind it.
    fn read(alloc: Global, text: &[u8]) -> Result<(Self, &[u8]), Fault>
        ensures ok { IfOk result (λ read. Self.in_range read.0
            × (text.now ≡ Self.text read.0 ++ read.1.now)) }
        ensures names { IfOk result (λ read. names_itself read.0) }
        ensures behind { IfOk result (λ read. follows read.0 read.1.now) }
        ensures shorter { IfOk result (λ read. length read.1.now < length text.now) }
        ensures refused { IfErr result (λ fault.
            WhereBad fault (NoneBegins Self.text Self.in_range text.now)) }
        ensures bad { IfErr result (λ fault.
            WhereBadAt fault (NoneShares (NoneBegins Self.text Self.in_range) text.now)) }
        ensures begun { IfErr result (λ fault.
            WhereBadAt fault (BeginsRow Self.text Self.in_range names_itself text.now)) };

    /// A row that has the words of the text's first line, and no other lines.
    fn read_first(alloc: Global, text: &[u8]) -> Result<Self, Fault>
        ensures section { OnOk result (section text.now ≡ kind) }
        ensures first { IfOk result (FirstTells Self.text Self.in_range before kind text.now) }
        ensures none { IfErr result (λ fault. WhereBad fault
            (NoneShares (NoneBegins Self.text Self.in_range) text.now (length text.now))) };

    /// The law that the rows of the section can be told apart.
    fn keeps_apart()
        ensures apart { KeepsApart Self.text Self.in_range names_itself follows kind }
        ensures lines { KeepsLines Self.text Self.in_range before follows };
}

// Splits the text behind its first line; None where the line does not end.
fn split_line(text: &[u8]) -> Option<(&[u8], &[u8])>
    ensures none { IfNone result (Without 10 text.now) }
    ensures line { IfSome result (λ parts. IsLine parts.0.now) }
    ensures whole { IfSome result (λ parts. text.now ≡ parts.0.now ++ parts.1.now) }
    ensures shorter { IfSome result (λ parts. length parts.1.now < length text.now) }
{
    let at = place_of(text, b'\n');
    if at == text.len() {
        return None;
    }
    Some(text.split_at(at + 1))
}

/// The row whose line begins the text, and what is behind it.
pub fn read_line<K: Line>(alloc: Global, text: &[u8]) -> Result<(K::Row, &[u8]), Fault>
    ensures ok { IfOk result (λ read. K.fits read.0 × (text.now ≡ K.text read.0 ++ read.1.now)) }
    ensures shorter { IfOk result (λ read. length read.1.now < length text.now) }
    ensures refused { IfErr result (λ fault. WhereBad fault (NoneBegins K.text K.fits text.now)) }
    ensures bad { IfErr result (λ fault.
        WhereBadAt fault (NoneShares (NoneBegins K.text K.fits) text.now)) }
    ensures first { IfErr result (λ fault.
        WhereBad fault (NoneShares (NoneBegins K.text K.fits) text.now (length text.now))) }
    ensures alone { IfErr result (λ fault. WhereBadAt fault (λ left. left ≡ length text.now)) }
{
    K::is_one_line();
    let Some((line, rest)) = split_line(text) else {
        return Err(Fault::Bad(text.len()));
    };
    match K::read(alloc, line) {
        Ok(row) => Ok((row, rest)),
        Err(Unread::Bad) => Err(Fault::Bad(text.len())),
        Err(Unread::NoMemory) => Err(Fault::NoMemory),
    }
}

/// As many rows as are to be, and what is behind them.
pub fn read_counted<K: Line>(
    alloc: Global,
    count: u64,
    text: &[u8],
) -> Result<(Sequence<K::Row>, &[u8]), Fault>
    ensures rows { IfOk result (λ read. All K.fits read.0
        × (text.now ≡ flat_map K.text read.0 ++ read.1.now)) }
    ensures count { IfOk result (λ read. length read.0 ≡ count) }
    ensures shorter { IfOk result (λ read. length read.1.now ≤ length text.now) }
    ensures refused { IfErr result (λ fault.
        WhereBad fault (NoneCounted K.text K.fits count text.now)) }
    ensures bad { IfErr result (λ fault.
        WhereBadAt fault (NoneShares (NoneCounted K.text K.fits count) text.now)) }
    ensures begun { IfErr result (λ fault.
        WhereBadAt fault (BeginsFew K.text K.fits count text.now)) }
{
    K::is_one_line();
    let mut rows = Sequence::new(alloc);
    let mut rest = text;
    let mut read = 0;
    while read < count {
        let (row, behind) = read_line::<K>(alloc, rest)?;
        rows.push(row)?;
        rest = behind;
        read += 1;
    }
    Ok((rows, rest))
}

/// All rows of a section, and what is behind them.
pub fn read_section<R: SectionRow>(
    alloc: Global,
    text: &[u8],
) -> Result<(Sequence<R>, &[u8]), Fault>
    ensures rows { IfOk result (λ read. All R.in_range read.0
        × (text.now ≡ flat_map R.text read.0 ++ read.1.now)) }
    ensures order { IfOk result (λ read. Ascend R.before read.0) }
    ensures names { IfOk result (λ read. All R.names_itself read.0) }
    ensures only { IfOk result (λ read. OnlySection R.text R.in_range R.names_itself R.before R.kind
        read.0 read.1.now text.now) }
    ensures refused { IfErr result (λ fault. WhereBad fault
        (NoSection R.text R.in_range R.names_itself R.before R.kind text.now)) }
    ensures shared { IfOk result (λ read. OnlyShared R.text R.in_range R.names_itself R.before
        R.kind read.0 read.1.now) }
    ensures bad { IfErr result (λ fault. WhereBadAt fault
        (NoneShares (NoSection R.text R.in_range R.names_itself R.before R.kind) text.now)) }
    ensures begun { IfErr result (λ fault.
        WhereBadAt fault (BeginsRows R.text R.in_range R.names_itself R.before text.now)) }
{
    R::keeps_apart();
    let mut rows = Sequence::new(alloc);
    let mut rest = text;
    loop {
        match R::read(alloc, rest) {
            Ok((row, behind)) => {
                if is_next(rows.as_slice(), &row) {
                    rows.push(row)?;
                    rest = behind;
                } else {
                    return Ok((rows, rest));
                }
            }
            Err(Fault::Bad(left)) => {
                if left == rest.len() || is_out_of_order(alloc, rows.as_slice(), rest)? {
                    return Ok((rows, rest));
                }
                return Err(Fault::Bad(left));
            }
            Err(Fault::NoMemory) => return Err(Fault::NoMemory),
        }
    }
}

// Whether the row may stand behind the last of these.
fn is_next<R: SectionRow>(rows: &[R], row: &R) -> bool
    ensures { IsTrue result ↔ FollowsLast R.before rows.now row.now }
{
    if rows.len() > 0 {
        rows[rows.len() - 1].is_before(row)
    } else {
        true
    }
}

// Whether the text's first line begins no row that may stand behind the last of these.
fn is_out_of_order<R: SectionRow>(alloc: Global, rows: &[R], text: &[u8]) -> Result<bool, NoMemory>
    ensures section { IfOk result (λ is_out. (¬ (IsTrue is_out)) → section text.now ≡ R.kind) }
    ensures of { IfOk result (λ is_out. (¬ (IsTrue is_out)) → IsOfSection R.kind text.now) }
    ensures out { IfOk result (λ is_out. IsTrue is_out
        → NoneFollows R.text R.in_range R.before rows.now text.now) }
    ensures follows { IfOk result (λ is_out. (¬ (IsTrue is_out))
        → EachFollows R.text R.in_range R.before rows.now text.now) }
{
    match R::read_first(alloc, text) {
        Ok(row) => Ok(!is_next(rows, &row)),
        Err(Fault::Bad(_)) => Ok(true),
        Err(Fault::NoMemory) => Err(NoMemory),
    }
}
