//! The colours of a picture, and the legend that says what they mean. All lengths are in pixels.

use crate::markup::{Area, push_rectangle, push_text};
use std::alloc::AllocError;

/// The head of a picture: what its classes look like.
pub(crate) const STYLE: &str = "<style>
text{font-family:'DejaVu Sans Mono',Menlo,Consolas,monospace;font-size:12px;fill:#222}
.inner{font-size:10px;fill:#222;text-anchor:middle;pointer-events:none}
.light{font-size:10px;fill:#fff;text-anchor:middle;pointer-events:none}
.round{font-size:10px;fill:#666;text-anchor:middle}
.note{font-size:11px;fill:#444}
.lines{fill:url(#columns);pointer-events:none}
.page{fill:#fff}
.mark{fill:#bbb}
.unset{fill:#f0f0f0}
.ready{fill:#8fd19e}
.asking{fill:#ffd166}
.delayed{fill:#c3b1e8}
.waiting{fill:#9fd8e6}
.ended{fill:#cfcfcf}
.fault{fill:#c1121f}
.free{fill:#fff;stroke:#ddd}
.p0{fill:#5d4037}.p1{fill:#455a64}.p2{fill:#1565c0}.p3{fill:#c2410c}.p4{fill:#2e7d32}.p5{fill:#8e24aa}
.p6{fill:#00838f}.p7{fill:#ad1457}.p8{fill:#827717}.p9{fill:#3949ab}.p10{fill:#a16207}.p11{fill:#37474f}
</style>
<defs><pattern id=\"columns\" width=\"12\" height=\"12\" patternUnits=\"userSpaceOnUse\">
<path d=\"M0 0V12\" stroke=\"#fff\" stroke-opacity=\".7\"/></pattern></defs>
";

// The number of processes that have a colour of their own.
const COLOURS: usize = 12;

// The classes of the colours of processes.
const OF_PROCESSES: [&str; COLOURS] = [
    "p0", "p1", "p2", "p3", "p4", "p5", "p6", "p7", "p8", "p9", "p10", "p11",
];

/// The class of the colour of the process with a number.
pub(crate) fn colour(process: u32) -> &'static str {
    OF_PROCESSES[process as usize % COLOURS]
}

/// The height of the legend, and the width that it needs.
pub(crate) const LEGEND_HEIGHT: usize = 56;

pub(crate) const LEGEND_WIDTH: usize = 640;

const LINE: usize = 18;

// The side of a colour, and the distance from its top to the foot of the letters next to it.
const SIDE: usize = 12;

const FOOT: usize = 11;

// The width of a character.
const CHARACTER: usize = 7;

const OF_PROCESS: [(&str, &str); 7] = [
    ("unset", "unstarted"),
    ("ready", "ready"),
    ("asking", "asking"),
    ("delayed", "delayed"),
    ("waiting", "waiting"),
    ("ended", "ended"),
    ("fault", "fault"),
];

const OF_MONITOR: [(&str, &str); 3] = [
    ("unset", "unset"),
    ("free", "free"),
    ("p2", "held: the colour, name or number of the holder"),
];

const NOTE: &str = "A name on the bar of a process is that of the monitor that it asks for or is \
delayed in.";

fn push_note(page: &mut String, x: usize, y: usize, text: &str) -> Result<(), AllocError> {
    push_text(page, "note", x, y.saturating_add(FOOT), text)
}

// Adds colours with what they mean, one after another.
fn push_line(
    page: &mut String,
    y: usize,
    title: &str,
    colours: &[(&str, &str)],
) -> Result<(), AllocError> {
    push_note(page, 8, y, title)?;
    let mut x: usize = 80;
    for (class, meaning) in colours {
        let (width, height) = (SIDE, SIDE);
        push_rectangle(
            page,
            class,
            Area {
                x,
                y,
                width,
                height,
            },
        )?;
        x = x.saturating_add(SIDE + 5);
        push_note(page, x, y, meaning)?;
        x = x.saturating_add(meaning.len().saturating_mul(CHARACTER).saturating_add(14));
    }
    Ok(())
}

/// Adds the legend.
///
/// # Errors
///
/// `AllocError` if memory runs out.
pub(crate) fn push_legend(page: &mut String, y: usize) -> Result<(), AllocError> {
    push_line(page, y, "process", &OF_PROCESS)?;
    push_line(page, y.saturating_add(LINE), "monitor", &OF_MONITOR)?;
    push_note(page, 8, y.saturating_add(LINE + LINE), NOTE)
}
