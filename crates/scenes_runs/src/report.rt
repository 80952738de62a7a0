//! What is printed of runs.
use crate::objects::{objects_text, staged_text};
use crate::rows::rows_text;
use crate::stage::{Played, Player, SceneStage, Stock};
use crate::texts::shown_text;
use crate::whole::flaw_of;
use scenes_text::{DEVICES, Scene, Variant, WorldDevice};
use std::alloc::{AllocError, Global};
use std::str;

/// How many lines of a text are printed from its start, and as many from its end.
const MOST_LINES: usize = 30;

/// Adds a line: a key word and a text.
fn push_line(report: &mut String, key: &str, text: &str) -> Result<(), AllocError> {
    report.push_str(key)?;
    if !text.is_empty() {
        report.push_str(" ")?;
        report.push_str(text)?;
    }
    report.push_str("\n")
}

/// Adds the lines of a text, each behind a key word. Of many lines the first ones are printed, and the last ones.
fn push_lines(report: &mut String, key: &str, text: &str) -> Result<(), AllocError> {
    let count = text.lines().count();
    let most = MOST_LINES;
    for (number, line) in text.lines().enumerate() {
        if number < most || number.saturating_add(most) >= count {
            push_line(report, key, line)?;
        } else if number == most {
            writeln!(report, "{key}, and of {count} lines the last {most}:")?;
        }
    }
    Ok(())
}

/// Adds what a sink gained, and whether its last line has no line feed.
fn push_gained(
    alloc: Global,
    report: &mut String,
    key: &str,
    bytes: &[u8],
) -> Result<(), AllocError> {
    let Ok(text) = str::from_utf8(bytes) else {
        let digits = hex::encode(alloc, bytes)?;
        return writeln!(report, "{key}, not text: {digits}");
    };
    push_lines(report, key, text)?;
    if text.is_empty() || text.ends_with("\n") {
        return Ok(());
    }
    writeln!(report, "{key}, no line feed")
}

/// Adds how often each device was called, and failed where it did. The carrier doesn't show how often it was called.
fn push_counts(report: &mut String, scene: &Scene, played: &Played) -> Result<(), AllocError> {
    report.push_str("calls")?;
    for device in DEVICES {
        if scene.shows(device) {
            push_count(report, played, device)?;
        }
    }
    report.push_str("\n")
}

fn push_count(report: &mut String, played: &Played, device: WorldDevice) -> Result<(), AllocError> {
    let name = device.name();
    if device == WorldDevice::Carrier {
        write!(report, " {name}")?;
    } else {
        let made = played.made(device);
        write!(report, " {name} {made}")?;
    }
    match played.faults(device) {
        0 => Ok(()),
        faults => write!(report, " ({faults} failed)"),
    }
}

/// Adds the places where devices are opened, the keeper's without its name.
fn push_places(report: &mut String, scene: &Scene, stage: &SceneStage) -> Result<(), AllocError> {
    for device in DEVICES {
        if scene.shows(device) {
            push_place(report, stage, device)?;
        }
    }
    Ok(())
}

fn push_place(
    report: &mut String,
    stage: &SceneStage,
    device: WorldDevice,
) -> Result<(), AllocError> {
    let Some(place) = stage.opened(device) else {
        return Ok(());
    };
    let place = shown_text(place);
    match device {
        WorldDevice::Keeper => push_line(report, "opened", place),
        _ => writeln!(report, "opened {} {place}", device.name()),
    }
}

/// Adds the outcome of a run, which left this stage.
pub fn push_played(
    alloc: Global,
    report: &mut String,
    scene: &Scene,
    played: &Played,
    stage: &SceneStage,
) -> Result<(), AllocError> {
    let status = played.status;
    writeln!(report, "status {status}")?;
    push_gained(alloc, report, "out", played.out.as_slice())?;
    push_gained(alloc, report, "err", played.err.as_slice())?;
    let entries = played.entries;
    writeln!(report, "entries {entries}")?;
    push_counts(report, scene, played)?;
    push_places(report, scene, stage)
}

/// Adds what the stores of a stage have: the objects and the staged blocks, and the rows, each where the scene shows
/// them.
pub fn push_stock(
    alloc: Global,
    report: &mut String,
    scene: &Scene,
    stage: &mut SceneStage,
) -> Result<(), AllocError> {
    let stock = stage.stock(alloc)?;
    if scene.shows_blocks {
        report.push_str(objects_text(alloc, &stock.objects)?.as_str())?;
        report.push_str(staged_text(alloc, &stock.staged)?.as_str())?;
    }
    if scene.shows_rows {
        report.push_str(rows_text(alloc, &stock.rows)?.as_str())?;
    }
    Ok(())
}

/// Adds one line on a volume: its name, and that it is whole, or what of it isn't.
pub fn push_volume(
    alloc: Global,
    report: &mut String,
    name: &str,
    stage: &mut SceneStage,
) -> Result<(), AllocError> {
    let stock = stage.stock(alloc)?;
    let found = flaw_of(alloc, &stock)?.unwrap_or("whole");
    writeln!(report, "volume {name}: {found}")
}

/// Lists what is left in the stores, where the scene has a script for that, and adds the answers. The run is made on
/// the stage.
pub fn push_list(
    alloc: Global,
    report: &mut String,
    scene: &Scene,
    stock: Stock,
    stage: &mut SceneStage,
    player: &impl Player,
) -> Result<(), AllocError> {
    if scene.list.is_empty() {
        return Ok(());
    }
    stage.put(alloc, scene, Variant::List, stock)?;
    let played = stage.play(alloc, scene.words(), player)?;
    push_listed(alloc, report, &played)
}

/// Adds the answers of a run, and its status where that isn't 0.
fn push_listed(alloc: Global, report: &mut String, played: &Played) -> Result<(), AllocError> {
    push_gained(alloc, report, "list", played.out.as_slice())?;
    match played.status {
        0 => Ok(()),
        status => writeln!(report, "list, status {status}"),
    }
}

/// Adds one line on a run by words: its status, the words, and the first line of standard error, or else of `out`.
pub fn push_try(report: &mut String, words: &[String], played: &Played) -> Result<(), AllocError> {
    let status = played.status;
    write!(report, "status {status}:")?;
    for word in words {
        report.push_str(" ")?;
        report.push_str(word.as_str())?;
    }
    push_first_line(report, said(played))
}

/// Ends a line with the first line of a text, and the number of those behind it.
fn push_first_line(report: &mut String, text: &str) -> Result<(), AllocError> {
    if let Some(first) = text.lines().next() {
        write!(report, " -> {first}")?;
    }
    match text.lines().skip(1).count() {
        0 => report.push_str("\n"),
        more => writeln!(report, " ({more} more lines)"),
    }
}

/// Adds one line on a run whose script ends with a line: its status, the line, and the last line of standard error, or
/// else of `out`.
pub fn push_then(report: &mut String, line: &str, played: &Played) -> Result<(), AllocError> {
    let status = played.status;
    write!(report, "status {status}: {line}")?;
    if let Some(last) = said(played).lines().last() {
        write!(report, " -> {last}")?;
    }
    report.push_str("\n")
}

/// The text of standard error, or else of `out`.
fn said(played: &Played) -> &str {
    let bytes = if played.err.is_empty() {
        played.out.as_slice()
    } else {
        played.err.as_slice()
    };
    shown_text(bytes)
}
