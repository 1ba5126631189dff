// The lines of a listing, stretch by stretch, read from the front of a text. Each reader answers what its lines say and the text that is left behind them.
ghost use Rattle.std.specs.Prelude.{◌≡◌};
ghost use Rattle.text.specs.Found.{found};
ghost use Rattle.form.specs.Form.{read_named, read_terms, read_settled, read_moved, read_counters, read_arrivals};
ghost use Rattle.form.specs.Found.{named_values, settled_values, moved_values, arrival_values, valued};

use crate::values::{ArrivalLines, MovedLines, NamedLines, SettledLines, TermLines};
use text::reading;
use window::{Counters, Frame};

// The lines that an install settled.
pub(crate) fn settled_lines(text: &[u8]) -> Option<(SettledLines<'_>, &[u8])>
    ensures { valued settled_values (found result) ≡ read_settled text.now }
{
    let (named, behind) = named_lines(text)?;
    let (terms, rest) = term_lines(behind)?;
    Some((SettledLines { named, terms }, rest))
}

// The lines by the arrivals.
pub(crate) fn arrival_lines(text: &[u8]) -> Option<(ArrivalLines<'_>, &[u8])>
    ensures { valued arrival_values (found result) ≡ read_arrivals text.now }
{
    let (moved, behind) = moved_lines(text)?;
    let (counters, rest) = counter_lines(behind)?;
    Some((ArrivalLines { moved, counters }, rest))
}

// The lines that say which entry it is.
fn named_lines(text: &[u8]) -> Option<(NamedLines<'_>, &[u8])>
    ensures { valued named_values (found result) ≡ read_named text.now }
{
    let (slot, rest) = reading::decimal_line(b"slot=", text)?;
    let (flag, rest) = reading::decimal_line(b"flag=", rest)?;
    let (keyid, rest) = reading::hex_line(b"keyid=", rest)?;
    let (source, rest) = reading::hex_line(b"source=", rest)?;
    let named = NamedLines {
        slot,
        flag,
        keyid,
        source,
    };
    Some((named, rest))
}

// The other lines that an install settled.
fn term_lines(text: &[u8]) -> Option<(TermLines, &[u8])>
    ensures { found result ≡ read_terms text.now }
{
    let (suite, rest) = reading::decimal_line(b"suite=", text)?;
    let (edition, rest) = reading::decimal_line(b"edition=", rest)?;
    let (size, rest) = reading::decimal_line(b"size=", rest)?;
    let (start, rest) = reading::decimal_line(b"start=", rest)?;
    let terms = TermLines {
        suite,
        edition,
        frame: Frame { size, start },
    };
    Some((terms, rest))
}

// The lines that the accepted messages moved.
fn moved_lines(text: &[u8]) -> Option<(MovedLines<'_>, &[u8])>
    ensures { valued moved_values (found result) ≡ read_moved text.now }
{
    let (highest, rest) = reading::number_line(b"highest=", 6, text)?;
    let (marks, rest) = reading::bytes_line(b"marks=", 32, rest)?;
    let (accepted, rest) = reading::decimal_line(b"accepted=", rest)?;
    let (bytes, rest) = reading::decimal_line(b"bytes=", rest)?;
    let moved = MovedLines {
        highest,
        marks,
        accepted,
        bytes,
    };
    Some((moved, rest))
}

// The lines of what was turned away.
fn counter_lines(text: &[u8]) -> Option<(Counters, &[u8])>
    ensures { found result ≡ read_counters text.now }
{
    let (replays, rest) = reading::decimal_line(b"replays=", text)?;
    let (forged, rest) = reading::decimal_line(b"forged=", rest)?;
    Some((Counters { replays, forged }, rest))
}
