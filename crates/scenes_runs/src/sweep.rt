//! Runs of a scene in each of which one more call fails, and the rule that each of them keeps.
use crate::report::{push_list, push_played};
use crate::rows::{rows_text, unnumbered_text};
use crate::stage::{Played, Player, count_lines};
use crate::texts::text_of;
use crate::theatre::Theatre;
use crate::whole::flaw_of;
use jv_model::Rows;
use scenes_text::{DEVICES, Scene, SweepRun, Variant, WorldDevice};
use std::alloc::{AllocError, Global};

/// The status of a run that a device's fault ended.
const FAILED: u8 = 5;

/// What is in rows and objects: the rows as they are compared, what the scene lists, how many objects
/// there are, and what isn't whole.
#[derive(Drop)]
struct Left {
    rows: String,
    listed: String,
    objects: u64,
    flaw: Option<&'static str>,
}

impl Left {
    fn is_same_as(&self, other: &Left) -> bool {
        self.rows.as_str() == other.rows.as_str() && self.listed.as_str() == other.listed.as_str()
    }
}

/// A run, what is printed of it, and what is there before it and after it.
#[derive(Drop)]
struct Run {
    played: Played,
    text: String,
    before: Left,
    after: Left,
    /// Whether the depot is opened, and so the carrier too, unless that failed.
    is_opened: bool,
}

impl Run {
    /// How many calls of its carrier a run has made in which none failed: one that opens it, and one
    /// for each object that is new.
    fn carried(&self) -> u64 {
        if self.played.faults(WorldDevice::Carrier) > 0 {
            return 0;
        }
        let sent = self.after.objects.saturating_sub(self.before.objects);
        sent.saturating_add(u64::from(self.is_opened))
    }
}

/// What all runs of a sweep have in common.
#[derive(Clone, Copy)]
struct Sweep<'a> {
    scene: &'a Scene,
    /// The run in which no further call fails.
    base: &'a Run,
    range: SweepRun,
}

/// The call that fails besides.
#[derive(Clone, Copy)]
struct Failing {
    device: WorldDevice,
    /// Which of the device's calls, from 1.
    number: u64,
}

/// A run in which one more call is to fail, and the run without that, against which it is held.
#[derive(Clone, Copy)]
struct Trial<'a> {
    scene: &'a Scene,
    base: &'a Run,
    now: &'a Run,
    failing: Failing,
}

/// Runs a sweep, and adds its outcome: each run that breaks the rule, and a sum for each device.
pub fn push_sweep(
    alloc: Global,
    report: &mut String,
    scene: &Scene,
    range: SweepRun,
    theatre: &mut Theatre<impl Player>,
) -> Result<(), AllocError> {
    let base = show(alloc, scene, Variant::Same, theatre)?;
    let sweep = Sweep {
        scene,
        base: &base,
        range,
    };
    push_devices(alloc, report, sweep, theatre)
}

fn push_devices(
    alloc: Global,
    report: &mut String,
    sweep: Sweep<'_>,
    theatre: &mut Theatre<impl Player>,
) -> Result<(), AllocError> {
    for device in DEVICES {
        if sweep.range.is_of(sweep.scene, device) {
            push_device(alloc, report, sweep, device, theatre)?;
        }
    }
    Ok(())
}

fn show(
    alloc: Global,
    scene: &Scene,
    variant: Variant<'_>,
    theatre: &mut Theatre<impl Player>,
) -> Result<Run, AllocError> {
    theatre.tried.set(alloc, scene, variant)?;
    let before = left_on(alloc, scene, theatre)?;
    let played = theatre.tried.play(alloc, scene.words(), &theatre.player)?;
    let mut text = String::new(alloc);
    push_played(alloc, &mut text, scene, &played, &theatre.tried)?;
    let after = left_on(alloc, scene, theatre)?;
    let is_opened = theatre.tried.opened(WorldDevice::Depot).is_some();
    Ok(Run {
        played,
        text,
        before,
        after,
        is_opened,
    })
}

/// What is left on the stage of tries.
fn left_on(
    alloc: Global,
    scene: &Scene,
    theatre: &mut Theatre<impl Player>,
) -> Result<Left, AllocError> {
    let stock = theatre.tried.stock(alloc)?;
    let rows = compared_text(alloc, scene, &stock.rows)?;
    let objects = stock.objects.len() as u64;
    let flaw = flaw_of(alloc, &stock)?;
    let mut listed = String::new(alloc);
    push_list(
        alloc,
        &mut listed,
        scene,
        stock,
        &mut theatre.listed,
        &theatre.player,
    )?;
    Ok(Left {
        rows,
        listed,
        objects,
        flaw,
    })
}

/// The rows as they are compared. Where a scene shows blocks that is without numbers of slices, since a flush that
/// fails has used one.
fn compared_text(alloc: Global, scene: &Scene, rows: &Rows) -> Result<String, AllocError> {
    if scene.shows_blocks {
        unnumbered_text(alloc, rows)
    } else {
        rows_text(alloc, rows)
    }
}

/// The outcome of the runs of a sweep.
#[derive(Clone, Copy)]
struct Sum {
    /// Calls that failed.
    failed: u64,
    /// Runs that ended with status 5.
    ended: u64,
    /// Answers that differ.
    differ: u64,
    /// Runs that break the rule.
    broken: u64,
}

impl Sum {
    const NONE: Sum = Sum {
        failed: 0,
        ended: 0,
        differ: 0,
        broken: 0,
    };

    /// With one more run.
    fn with(self, trial: Trial<'_>, is_broken: bool) -> Sum {
        let now = &trial.now.played;
        let ended = now.status == FAILED;
        Sum {
            failed: self.failed.saturating_add(trial.rise()),
            ended: self.ended.saturating_add(u64::from(ended)),
            differ: self
                .differ
                .saturating_add(differing(&trial.base.played, now)),
            broken: self.broken.saturating_add(u64::from(is_broken)),
        }
    }
}

impl Trial<'_> {
    /// By how much the device whose call is to fail failed more often.
    fn rise(&self) -> u64 {
        rise(&self.base.played, &self.now.played, self.failing.device)
    }
}

fn push_device(
    alloc: Global,
    report: &mut String,
    sweep: Sweep<'_>,
    device: WorldDevice,
    theatre: &mut Theatre<impl Player>,
) -> Result<(), AllocError> {
    let mut sum = Sum::NONE;
    for number in sweep.range.first..=sweep.range.last {
        let failing = Failing { device, number };
        sum = push_run(alloc, report, sweep, failing, sum, theatre)?;
    }
    push_sum(report, sweep.range, device, sum)
}

/// Makes the run in which a call fails. Returns the sum with it.
fn push_run(
    alloc: Global,
    report: &mut String,
    sweep: Sweep<'_>,
    failing: Failing,
    sum: Sum,
    theatre: &mut Theatre<impl Player>,
) -> Result<Sum, AllocError> {
    let Sweep { scene, base, .. } = sweep;
    let fails = Variant::Fails(failing.device, failing.number);
    let now = show(alloc, scene, fails, theatre)?;
    let trial = Trial {
        scene,
        base,
        now: &now,
        failing,
    };
    judge(alloc, report, trial, sum, theatre)
}

/// Adds what of the rule a run breaks. Returns the sum with it.
fn judge(
    alloc: Global,
    report: &mut String,
    trial: Trial<'_>,
    sum: Sum,
    theatre: &mut Theatre<impl Player>,
) -> Result<Sum, AllocError> {
    let broken = broken_by(alloc, trial, theatre)?
        .or(broken_volume(trial.now))
        .or(broken_carriage(trial));
    push_broken(report, trial.failing, broken)?;
    Ok(sum.with(trial, broken.is_some()))
}

/// What isn't whole of what a run left, where what it began with was.
fn broken_volume(run: &Run) -> Option<&'static str> {
    match run.before.flaw {
        None => run.after.flaw,
        Some(_) => None,
    }
}

/// What of the rule a run breaks in which one more call of the carrier was to fail. A carrier shows no
/// calls, so one that is passed over, or made again after it failed, is seen by this alone: where the
/// run without the fault makes the call, an answer or standard error has to say that it failed.
fn broken_carriage(trial: Trial<'_>) -> Option<&'static str> {
    let Failing { device, number } = trial.failing;
    if device == WorldDevice::Carrier && number <= trial.base.carried() && trial.rise() == 0 {
        Some("the failed call is passed over")
    } else {
        None
    }
}

/// Adds what of the rule a run breaks, if it breaks any.
fn push_broken(
    report: &mut String,
    failing: Failing,
    broken: Option<&'static str>,
) -> Result<(), AllocError> {
    let Some(why) = broken else {
        return Ok(());
    };
    let Failing { device, number } = failing;
    let name = device.name();
    writeln!(report, "broken by call {number} of {name}: {why}")
}

fn push_sum(
    report: &mut String,
    range: SweepRun,
    device: WorldDevice,
    sum: Sum,
) -> Result<(), AllocError> {
    let SweepRun { first, last, .. } = range;
    let name = device.name();
    let Sum {
        failed,
        ended,
        differ,
        broken,
    } = sum;
    write!(report, "for k {first}..{last} {name}: {failed} failed, ")?;
    write!(
        report,
        "{ended} ended with status 5, {differ} answers differ, "
    )?;
    writeln!(report, "{broken} break the rule")
}

/// By how much a device failed more often.
fn rise(base: &Played, now: &Played, device: WorldDevice) -> u64 {
    now.faults(device).saturating_sub(base.faults(device))
}

/// The number of the first answer, from 0, that the device failed, where it isn't one of the run in which no further
/// call fails.
fn first_failure(trial: Trial<'_>) -> Option<usize> {
    let failure = trial.failing.device.failure()?;
    if failures(trial.base, failure) >= failures(trial.now, failure) {
        return None;
    }
    text_of(&trial.now.played.out)
        .lines()
        .position(|line| line == failure)
}

/// How many answers of a run are this one.
fn failures(run: &Run, failure: &str) -> u64 {
    count_lines(run.played.out.as_slice(), failure)
}

/// What of the rule a run breaks whose operation at a line met a device that failed: it has one such answer more for
/// the one call more that failed; and where each line is an operation that is run to its end, the other answers, and
/// what is left, are those of the run without that line.
fn broken_failure(
    alloc: Global,
    trial: Trial<'_>,
    line: usize,
    theatre: &mut Theatre<impl Player>,
) -> Result<Option<&'static str>, AllocError> {
    if let Some(why) = broken_count(trial) {
        return Ok(Some(why));
    }
    if !trial.scene.is_plain() {
        return Ok(None);
    }
    let without = show(alloc, trial.scene, Variant::Without(line), theatre)?;
    Ok(broken_rest(trial.now, &without, line))
}

/// What of the rule a run breaks by how often a device failed, or by its status.
fn broken_count(trial: Trial<'_>) -> Option<&'static str> {
    let Trial { base, now, .. } = trial;
    let failure = trial.failing.device.failure()?;
    if trial.rise() != 1 {
        Some("more than one call failed")
    } else if failures(now, failure) != failures(base, failure).saturating_add(1) {
        Some("more operations were answered so than calls failed")
    } else if now.played.status != base.played.status {
        Some("the status is another one")
    } else {
        None
    }
}

/// What of the rule a run breaks by how it differs from the run without the line of this number.
fn broken_rest(now: &Run, without: &Run, line: usize) -> Option<&'static str> {
    if !now.after.is_same_as(&without.after) {
        Some("the rows, or what is listed, aren't those of the run without the line")
    } else if has_answers_besides(&now.played, &without.played, line) {
        None
    } else {
        Some("the answers aren't those of the run without the line")
    }
}

/// Whether a run's answers, but for the one of this number, are those of another run.
fn has_answers_besides(now: &Played, without: &Played, line: usize) -> bool {
    let mut wanted = text_of(&without.out).lines();
    for (number, answer) in text_of(&now.out).lines().enumerate() {
        if number != line && wanted.next() != Some(answer) {
            return false;
        }
    }
    wanted.next().is_none()
}

/// What of the rule a run breaks in which one more call of a device was to fail.
fn broken_by(
    alloc: Global,
    trial: Trial<'_>,
    theatre: &mut Theatre<impl Player>,
) -> Result<Option<&'static str>, AllocError> {
    match first_failure(trial) {
        Some(line) => broken_failure(alloc, trial, line, theatre),
        None => Ok(broken_rule(trial)),
    }
}

/// What of the rule a run breaks in which one more call of a device was to fail, where that was no operation's call.
fn broken_rule(trial: Trial<'_>) -> Option<&'static str> {
    let Trial { base, now, .. } = trial;
    let device = trial.failing.device;
    let rise = trial.rise();
    if !has_rows_of(base, now) && !was_cut_off(&now.played) {
        Some("the rows, or what is listed, are neither those before nor those of the whole run")
    } else if rise == 0 && now.text.as_str() != base.text.as_str() {
        Some("no call failed, and yet it is another run")
    } else if rise > 1 {
        Some("more than one call failed")
    } else if has_other_faults(&base.played, &now.played, device) {
        Some("a call of another device failed")
    } else if differing(&base.played, &now.played) > rise {
        Some("more answers differ than calls failed")
    } else {
        broken_end(&base.played, &now.played, device, rise > 0)
    }
}

/// Whether a run leaves what was there before, or what the whole run leaves.
fn has_rows_of(base: &Run, now: &Run) -> bool {
    now.after.is_same_as(&base.before) || now.after.is_same_as(&base.after)
}

/// Whether a run ended at a failed device after the first step of a script. Its rows are those that its steps left.
fn was_cut_off(now: &Played) -> bool {
    now.status == FAILED && now.entries > 0
}

fn has_other_faults(base: &Played, now: &Played, device: WorldDevice) -> bool {
    for other in DEVICES {
        if other != device && rise(base, now, other) > 0 {
            return true;
        }
    }
    false
}

/// What of the rule a run's end breaks: it is that of the run in which no further call fails, or status 5 and the
/// device's name.
fn broken_end(
    base: &Played,
    now: &Played,
    device: WorldDevice,
    has_failed: bool,
) -> Option<&'static str> {
    if now.status == FAILED && says_failed(now, device) {
        return None;
    }
    if now.status != base.status {
        Some("the status is neither that of the whole run nor 5 with the device's name")
    } else if has_failed && is_never_passed_over(device) {
        Some("the failed call is passed over")
    } else if text_of(&now.out).lines().count() < text_of(&base.out).lines().count() {
        Some("answers are missing")
    } else if !text_of(&base.err).starts_with(text_of(&now.err)) {
        Some("standard error has another text")
    } else {
        None
    }
}

/// Whether a fault of the device ends a run.
fn is_never_passed_over(device: WorldDevice) -> bool {
    device != WorldDevice::Err && device.failure().is_none()
}

/// Whether standard error says that the device failed, and nothing else.
fn says_failed(now: &Played, device: WorldDevice) -> bool {
    let Some(rest) = text_of(&now.err).strip_prefix("juicevol: ") else {
        return false;
    };
    rest.strip_suffix(" failed\n") == Some(device.name())
}

/// The number of answers that aren't those of the run in which no further call fails. The last one may be cut.
fn differing(base: &Played, now: &Played) -> u64 {
    let mut wanted = text_of(&base.out).split('\n');
    let mut lines = text_of(&now.out).split('\n').peekable();
    let mut count = 0u64;
    while let Some(line) = lines.next() {
        let is_last = lines.peek().is_none();
        if !is_answer(wanted.next(), line, is_last) {
            count = count.saturating_add(1);
        }
    }
    count
}

fn is_answer(wanted: Option<&str>, line: &str, is_last: bool) -> bool {
    match wanted {
        Some(wanted) if is_last => wanted.starts_with(line),
        Some(wanted) => wanted == line,
        None => false,
    }
}
