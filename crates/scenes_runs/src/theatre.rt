//! What is done in a scene, one thing after the other, and the stages for it.
use crate::report::{push_list, push_played, push_stock, push_then, push_try, push_volume};
use crate::stage::{Player, SceneStage};
use crate::sweep::push_sweep;
use scenes_text::{Altered, Further, Repeat, Scene, Variant, bytes_of};
use std::alloc::{AllocError, Global};

/// The stages of a scene, and who plays on them.
#[derive(Drop)]
pub struct Theatre<P> {
    pub(crate) player: P,
    /// That of the scene's own runs.
    own: SceneStage,
    /// That of tries and sweeps.
    pub(crate) tried: SceneStage,
    /// That of the runs which list what is left.
    pub(crate) listed: SceneStage,
}

impl<P: Player> Theatre<P> {
    /// A theatre with empty stages.
    pub fn new(player: P) -> Theatre<P> {
        Theatre {
            player,
            own: SceneStage::new(),
            tried: SceneStage::new(),
            listed: SceneStage::new(),
        }
    }
}

/// Runs a scene, and adds its outcome.
pub fn push_scene(
    alloc: Global,
    report: &mut String,
    scene: &Scene,
    theatre: &mut Theatre<impl Player>,
) -> Result<(), AllocError> {
    let name = scene.name.as_str();
    writeln!(report, "scene {name}")?;
    push_first(alloc, report, scene, theatre)?;
    for further in scene.further.as_slice() {
        push_further(alloc, report, scene, further, theatre)?;
    }
    push_stock(alloc, report, scene, &mut theatre.own)?;
    report.push_str("\n")
}

/// Makes a scene's first run, where it has words for one, and its sweeps, and adds their outcomes.
fn push_first(
    alloc: Global,
    report: &mut String,
    scene: &Scene,
    theatre: &mut Theatre<impl Player>,
) -> Result<(), AllocError> {
    theatre.own.set(alloc, scene, Variant::Same)?;
    if scene.words.is_none() {
        return Ok(());
    }
    let played = theatre.own.play(alloc, scene.words(), &theatre.player)?;
    push_played(alloc, report, scene, &played, &theatre.own)?;
    push_after_first(alloc, report, scene, theatre)
}

/// Lists what the first run left, makes the sweeps, and adds their outcomes.
fn push_after_first(
    alloc: Global,
    report: &mut String,
    scene: &Scene,
    theatre: &mut Theatre<impl Player>,
) -> Result<(), AllocError> {
    let stock = theatre.own.stock(alloc)?;
    push_list(
        alloc,
        report,
        scene,
        stock,
        &mut theatre.listed,
        &theatre.player,
    )?;
    for sweep in scene.sweeps.as_slice() {
        push_sweep(alloc, report, scene, *sweep, theatre)?;
    }
    Ok(())
}

/// Does what is to be done after the first run, and adds its outcome.
fn push_further(
    alloc: Global,
    report: &mut String,
    scene: &Scene,
    further: &Further,
    theatre: &mut Theatre<impl Player>,
) -> Result<(), AllocError> {
    match further {
        Further::Repeat(again) => push_again(alloc, report, scene, again, theatre),
        Further::Try(words) => try_words(alloc, report, scene, words.as_slice(), theatre),
        Further::TryLine(line) => try_line(alloc, report, scene, line.as_str(), theatre),
        Further::Volume(altered) => judge_volume(alloc, report, scene, altered, theatre),
    }
}

/// Says whether what a scene begins with is a whole volume once rows are altered.
fn judge_volume(
    alloc: Global,
    report: &mut String,
    scene: &Scene,
    altered: &Altered,
    theatre: &mut Theatre<impl Player>,
) -> Result<(), AllocError> {
    theatre.tried.set_altered(alloc, scene, altered)?;
    push_volume(alloc, report, altered.name.as_str(), &mut theatre.tried)
}

/// Makes a run by these words on a world of its own.
fn try_words(
    alloc: Global,
    report: &mut String,
    scene: &Scene,
    words: &[String],
    theatre: &mut Theatre<impl Player>,
) -> Result<(), AllocError> {
    theatre.tried.set(alloc, scene, Variant::Same)?;
    let played = theatre.tried.play(alloc, words, &theatre.player)?;
    push_try(report, words, &played)
}

/// Makes a run by the scene's words on a world of its own, whose script has one more line.
fn try_line(
    alloc: Global,
    report: &mut String,
    scene: &Scene,
    line: &str,
    theatre: &mut Theatre<impl Player>,
) -> Result<(), AllocError> {
    theatre.tried.set(alloc, scene, Variant::Line(line))?;
    let played = theatre.tried.play(alloc, scene.words(), &theatre.player)?;
    push_then(report, line, &played)
}

/// Makes a run on the world that the run before left.
fn push_again(
    alloc: Global,
    report: &mut String,
    scene: &Scene,
    again: &Repeat,
    theatre: &mut Theatre<impl Player>,
) -> Result<(), AllocError> {
    let words = match &again.words {
        Some(words) => words.as_slice(),
        None => scene.words(),
    };
    if !again.script.is_empty() {
        theatre
            .own
            .set_script(alloc, bytes_of(alloc, again.script.as_slice())?);
    }
    let played = theatre.own.play(alloc, words, &theatre.player)?;
    report.push_str("again\n")?;
    push_played(alloc, report, scene, &played, &theatre.own)
}
