//! The background of the picture: lanes, and the axis with its grid.

use crate::elements::{LineElement, Rectangle, push_line, push_rectangle, push_words};
use crate::heading::push_count;
use crate::sheet::{LANE_HEIGHT, Sheet};
use events::worker_id::WorkerId;
use std::alloc::{AllocError, Global};
use trace_layout::axis::LEFT;

/// Adds the beginning of the SVG, with its style sheet. It has a view box, so that a page can scale
/// it.
pub fn push_beginning(text: &mut String, width: u32, height: u32) -> Result<(), AllocError> {
    let width = width / 10;
    let height = height / 10;
    write!(
        text,
        "<svg xmlns=\"http://www.w3.org/2000/svg\" width=\"{width}\" height=\"{height}\" viewBox=\"0 0 {width} {height}\">\n"
    )?;
    text.push_str(STYLE)
}

/// The style sheet: `p3` is the pale colour of tasks with three dots in their path, `d3` the full
/// one.
const STYLE: &str = "<style>
text{font-family:'DejaVu Sans',sans-serif;font-size:10px;fill:#222}
.paper{fill:#fff}
.heading{font-size:15px;font-weight:bold}
.numbers{font-size:12px;fill:#444}
.worker{font-size:12px;text-anchor:end}
.steps{text-anchor:end;fill:#777}
.tall{font-size:7px;text-anchor:end;fill:#888}
.axis{text-anchor:middle;fill:#666}
.mark{font-size:13px;font-weight:bold;text-anchor:middle}
.lane0{fill:#f6f6f6}
.lane1{fill:#efefef}
.grid{stroke:#ddd}
.chain{fill:#111}
.edge{stroke:#222;stroke-width:3}
.steal{stroke:#c22;stroke-width:1.4;marker-end:url(#arrow)}
.tick{fill:#c22}
.take{stroke:#999;fill:none;stroke-dasharray:2,2}
.spawn{fill:#333}
.work,.wait{stroke:#333;stroke-width:2}
.wait{stroke-dasharray:4,3}
.back{fill:#fff;stroke:#333}
.owner{fill:#333;stroke:#333}
.rescue{fill:#59a14f;stroke:#333}
.busy{fill:#8fb3d9}
.floor{stroke:#666}
.p0{fill:#d3deeb;stroke:#4e79a7}.d0{fill:#4e79a7}
.p1{fill:#d5e8d2;stroke:#59a14f}.d1{fill:#59a14f}
.p2{fill:#fbf2d0;stroke:#edc948}.d2{fill:#edc948}
.p3{fill:#fcdec4;stroke:#f28e2b}.d3{fill:#f28e2b}
.p4{fill:#ebdee7;stroke:#b07aa1}.d4{fill:#b07aa1}
.p5{fill:#ddedec;stroke:#76b7b2}.d5{fill:#76b7b2}
.p6{fill:#e6dcd7;stroke:#9c755f}.d6{fill:#9c755f}
.p7{fill:#ffe6e9;stroke:#ff9da7}.d7{fill:#ff9da7}
</style>
<defs><marker id=\"arrow\" viewBox=\"0 0 8 8\" refX=\"7\" refY=\"4\" markerWidth=\"7\" markerHeight=\"7\" orient=\"auto\">\
<path d=\"M0,0 L8,4 L0,8 z\" fill=\"#c22\"/></marker></defs>
";

/// Adds a lane for each worker, with its number of steps.
pub fn push_lanes(
    text: &mut String,
    alloc: Global,
    sheet: Sheet,
    steps: &[usize],
) -> Result<(), AllocError> {
    for number in 0..sheet.workers {
        let Some(worker) = WorkerId::new(number) else {
            return Ok(());
        };
        push_lane(text, sheet, worker)?;
        let name = format!(in alloc; "worker {number}")?;
        push_words(
            text,
            "worker",
            LEFT - 100,
            sheet.lane(worker) + 260,
            name.as_str(),
        )?;
        let count = match steps.get(number as usize) {
            Some(count) => *count,
            None => 0,
        };
        let mut did = String::new(alloc);
        push_count(&mut did, "", count, "step")?;
        push_words(
            text,
            "steps",
            LEFT - 100,
            sheet.lane(worker) + 410,
            did.as_str(),
        )?;
    }
    Ok(())
}

/// Adds a lane, in alternating shades of grey.
fn push_lane(text: &mut String, sheet: Sheet, worker: WorkerId) -> Result<(), AllocError> {
    let class = if worker.number() % 2 == 0 {
        "lane0"
    } else {
        "lane1"
    };
    let place = Rectangle {
        x: LEFT,
        y: sheet.lane(worker),
        width: sheet.axis.x(sheet.axis.events) - LEFT,
        height: LANE_HEIGHT,
    };
    push_rectangle(text, class, &place)
}

/// Adds the grid, with the numbers of events and the word `event` at the axis.
pub fn push_grid(text: &mut String, alloc: Global, sheet: Sheet) -> Result<(), AllocError> {
    let step = sheet.axis.grid();
    let end = sheet.grid_end();
    push_words(text, "steps", LEFT - 100, end + 140, "event")?;
    for line in 0..32usize {
        let event = step.saturating_mul(line);
        if line > 0 && event >= sheet.axis.events {
            return Ok(());
        }
        let x = sheet.axis.x(event);
        push_line(text, "grid", &LineElement::upright(x, 740, end))?;
        let number = format!(in alloc; "{event}")?;
        push_words(text, "axis", x, end + 140, number.as_str())?;
    }
    Ok(())
}
