// A panel's text as a record, with the bytes that the record's spans point to; or refusal 19 with the number of a line.
#![tactic(auto)]

ghost use Rattle.std.specs.Prelude.{◌≡◌};
ghost use Rattle.panel_reading.specs.Reading.{display_of, color_of, listed_of, record_of, lost, read_by, read_text};

use panel_layout::Places;
use standard_record::{Color, Display, StandardReading, StandardRecord, Timings};
use steps::Refusal;

// The record, and how its reading ended; three places of thirteen bytes, one for each descriptor.
#[derive(Drop)]
pub struct PanelReading {
    pub reading: StandardReading,
    pub bytes: [u8; 39],
}

// The longest text.
const MOST: usize = 65536;

#[tactic(auto, unfolding(crate::specs::Reading::display_of))]
fn display(s: &[u8]) -> Display
    ensures { result ≡ display_of s.now }
{
    Display {
        input: panel_front::input(text_lines::content(s, 2)),
        size: panel_front::size(text_lines::content(s, 3)),
        gamma: panel_front::gamma(text_lines::content(s, 4), 1),
        features: panel_front::features(text_lines::content(s, 5)),
    }
}

#[tactic(auto, unfolding(crate::specs::Reading::color_of))]
fn color(s: &[u8], p: Places) -> Color
    ensures { result ≡ color_of s.now p }
{
    Color {
        basic: panel_front::chroma(text_lines::content(s, 6)),
        points: panel_lists::points(s, 7, p.established),
    }
}

#[tactic(auto, unfolding(crate::specs::Reading::listed_of))]
fn timings(s: &[u8], p: Places) -> Timings
    ensures { result ≡ listed_of s.now p }
{
    Timings {
        established: panel_lists::established(text_lines::content(s, p.established)),
        standard: panel_lists::pairs(s, p.pairs, p.timings),
        detailed: panel_lists::timings(s, p.timings, p.entries),
    }
}

#[tactic(auto, unfolding(crate::specs::Reading::record_of))]
fn record_by(s: &[u8], p: Places) -> StandardRecord
    ensures { result ≡ record_of s.now p }
{
    StandardRecord {
        product: panel_front::product(text_lines::content(s, 0)),
        version: panel_front::version(text_lines::content(s, 1)),
        display: display(s),
        color: color(s, p),
        timings: timings(s, p),
        descriptors: panel_lists::entries(s, p.entries, p.extensions),
        extensions: text_kinds::number(text_lines::content(s, p.extensions), 1),
    }
}

#[tactic(auto, unfolding(crate::specs::Reading::lost))]
fn lost(line: usize) -> PanelReading
    ensures { result ≡ lost line }
{
    let end = Err(Refusal {
        number: 19,
        at: line,
    });
    let edid = standard_record::blank_record();
    PanelReading {
        reading: StandardReading { edid, end },
        bytes: [0u8; 39],
    }
}

#[tactic(auto, unfolding(crate::specs::Reading::read_by))]
fn read_by(s: &[u8], laid: Result<Places, usize>) -> PanelReading
    ensures { result ≡ read_by s.now laid }
{
    match laid {
        Ok(p) => {
            let edid = record_by(s, p);
            let end = Ok(());
            PanelReading {
                reading: StandardReading { edid, end },
                bytes: panel_lists::bytes(s, p.entries, p.extensions),
            }
        }
        Err(k) => lost(text_lines::line_number(s, k)),
    }
}

#[tactic(auto, unfolding(crate::specs::Reading::read_text))]
pub fn read_panel(s: &[u8]) -> PanelReading
    ensures { result ≡ read_text s.now }
{
    if s.len() > MOST {
        return lost(text_lines::line_at(s, MOST));
    }
    read_by(s, panel_layout::layout(s))
}
