//! The words that begin lines, and the marks that end some.

ghost use Rattle.std.specs.Prelude.{◌≡◌, ◌<◌, ◌≤◌, ◌==◌, false, length, get_or, take};
ghost use Rattle.cert_text.specs.Machine.{LeadsTo, Opens, begin, in_mark, in_word, no_items, byte_step, word_text};
ghost use Rattle.cert_text.specs.Spelling.{mark_text};
ghost use Rattle.cert_text.specs.Kept.{MovesSpot};

use crate::grammar::Grammar;
use crate::line::Mark;
use crate::machine::StepFault;
use crate::spot::{Draft, Marked, NumberAt, Spot, Standing, Word};

/// Takes the whole word of an edge or a state line, where the bytes begin with it at the beginning of a line, and gives the
/// number of bytes taken.
pub fn take_word(standing: Standing, spot: &mut Spot, bytes: &[u8]) -> usize
    ensures within { result ≤ length bytes.now }
    ensures leads { MovesSpot standing spot.old (take result bytes.now) spot.new }
{
    let (Standing::Inside, Spot::Start) = (standing, *spot) else {
        return 0;
    };
    if bytes.starts_with(b"edge ") {
        *spot = Spot::Due {
            place: NumberAt::EdgeFrom,
        };
        5
    } else if bytes.starts_with(b"state ") {
        *spot = Spot::Due {
            place: NumberAt::StateParent,
        };
        6
    } else {
        0
    }
}

/// Takes the first byte of a line.
pub fn first_byte(spot: &mut Spot, standing: Standing, byte: u8) -> Result<(), StepFault>
    ensures { LeadsTo (begin standing byte) result no_items spot.new }
{
    let word = match (standing, byte) {
        (Standing::First, b's') => Word::Head,
        (Standing::Inside, b'e') => {
            *spot = Spot::Forked;
            return Ok(());
        }
        (Standing::Inside, b's') => Word::State,
        (Standing::Inside, b'l') => Word::Level,
        (Standing::Inside, b'j') => Word::Job,
        (Standing::Inside, b'r') => Word::Root,
        (Standing::Inside, b'v') => Word::Verdict,
        _ => return Err(StepFault::Wrong),
    };
    *spot = Spot::InWord { word, at: 1 };
    Ok(())
}

/// Takes the second byte of an edge line or the end.
pub fn second_byte(spot: &mut Spot, byte: u8) -> Result<(), StepFault>
    ensures { (g : Grammar) (s : Standing) (d : Draft) → LeadsTo (byte_step g s d Spot.Forked byte) result d spot.new }
{
    let word = match byte {
        b'd' => Word::Edge,
        b'n' => Word::End,
        _ => return Err(StepFault::Wrong),
    };
    *spot = Spot::InWord { word, at: 2 };
    Ok(())
}

// The byte of a word with this index.
fn word_byte(grammar: Grammar, word: Word, at: usize) -> u8
    requires { at < length (word_text grammar word) }
    ensures { result ≡ get_or (word_text grammar word) at 0 }
{
    match word {
        Word::Head => {
            let text = [
                b's',
                b'a',
                b'g',
                b'c',
                b'e',
                b'r',
                b't',
                b' ',
                grammar.version,
                b' ',
            ];
            text[at]
        }
        Word::Level => b"level "[at],
        Word::Root => b"root "[at],
        Word::State => b"state "[at],
        Word::Edge => b"edge "[at],
        Word::Job => b"job "[at],
        Word::Verdict => b"verdict "[at],
        Word::End => b"end\n"[at],
    }
}

// The number of bytes of a word.
fn word_length(grammar: Grammar, word: Word) -> usize
    ensures { result ≡ length (word_text grammar word) }
{
    match word {
        Word::Head => 10,
        Word::Level => 6,
        Word::Root => 5,
        Word::State => 6,
        Word::Edge => 5,
        Word::Job => 4,
        Word::Verdict => 8,
        Word::End => 4,
    }
}

// Where the last byte of a word leads; the end line's ends the line.
fn behind_word(word: Word) -> Spot
    ensures { Opens word result }
{
    let place = match word {
        Word::Head => NumberAt::HeadJobs,
        Word::Level => NumberAt::LevelNumber,
        Word::Root => NumberAt::RootLo,
        Word::State => NumberAt::StateParent,
        Word::Edge => NumberAt::EdgeFrom,
        Word::Job => NumberAt::JobNumber,
        Word::Verdict => {
            return Spot::MarkDue {
                marked: Marked::Verdict,
            };
        }
        Word::End => return Spot::Start,
    };
    Spot::Due { place }
}

/// Takes a further byte of a word, where it is no LF.
pub fn word_step(
    grammar: Grammar,
    spot: &mut Spot,
    word: Word,
    at: usize,
    byte: u8,
) -> Result<(), StepFault>
    requires within { at < length (word_text grammar word) }
    requires no_lf { (byte == 10) ≡ false }
    ensures { (d : Draft) → LeadsTo (in_word grammar d word at byte) result d spot.new }
{
    if byte != word_byte(grammar, word, at) {
        return Err(StepFault::Wrong);
    }
    *spot = if at + 1 == word_length(grammar, word) {
        behind_word(word)
    } else {
        Spot::InWord { word, at: at + 1 }
    };
    Ok(())
}

// The byte of a mark with this index.
fn mark_byte(mark: Mark, at: usize) -> u8
    requires { at < length (mark_text mark) }
    ensures { result ≡ get_or (mark_text mark) at 0 }
{
    match mark {
        Mark::Ok => b"ok\n"[at],
        Mark::Miss => b"miss\n"[at],
    }
}

/// The number of bytes of a mark, with its LF.
pub fn mark_length(mark: Mark) -> usize
    ensures { result ≡ length (mark_text mark) }
{
    match mark {
        Mark::Ok => 3,
        Mark::Miss => 5,
    }
}

/// Takes the first byte of a mark.
pub fn first_mark_byte(spot: &mut Spot, marked: Marked, byte: u8) -> Result<(), StepFault>
    ensures { (g : Grammar) (s : Standing) (d : Draft) → LeadsTo (byte_step g s d (Spot.MarkDue marked) byte) result d spot.new }
{
    let mark = match byte {
        b'o' => Mark::Ok,
        b'm' => Mark::Miss,
        _ => return Err(StepFault::Wrong),
    };
    *spot = Spot::InMark {
        marked,
        mark,
        at: 1,
    };
    Ok(())
}

/// Takes a further byte of a mark, where it is no LF.
pub fn mark_step(
    spot: &mut Spot,
    marked: Marked,
    mark: Mark,
    at: usize,
    byte: u8,
) -> Result<(), StepFault>
    requires within { at < length (mark_text mark) }
    requires no_lf { (byte == 10) ≡ false }
    ensures { (d : Draft) → LeadsTo (in_mark d marked mark at byte) result d spot.new }
{
    if byte != mark_byte(mark, at) {
        return Err(StepFault::Wrong);
    }
    *spot = Spot::InMark {
        marked,
        mark,
        at: at + 1,
    };
    Ok(())
}
