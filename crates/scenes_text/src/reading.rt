//! Scenes, read from their lines, and why a line is none of theirs.
use crate::device::WorldDevice;
use crate::scene::{Altered, Fragment, Further, Repeat, Scene, SweepRun, Words};
use jv_model::{Bytes, ClientId, LAST_MOMENT, Moment, Name, RowKey, Sequence, copied};
use jv_outside::{Object, Staged};
use std::alloc::{AllocError, AllocFailed, Global};

/// Why a line is no line of a scene.
#[derive(Clone, Copy)]
pub enum BadSceneLine {
    NoScene,
    NoName,
    NoKey,
    NotAlone,
    NoEnd,
    NotNumber,
    PastLastMoment,
    EmptyFragment,
    NoDevice,
    NotDigits,
    NotCounted,
    NotFail,
    NotRows,
    NotRow,
    NoVolume,
    NotObject,
    NotStaged,
    NoClient,
    NotShow,
    NotSweep,
    OutOfMemory,
}

impl BadSceneLine {
    /// The reason in words.
    pub fn text(self) -> &'static str {
        match self {
            BadSceneLine::NoScene => "no scene has begun",
            BadSceneLine::NoName => "the scene or the volume has no name",
            BadSceneLine::NoKey => "no such key word",
            BadSceneLine::NotAlone => "`script` and `list` stand alone on their lines",
            BadSceneLine::NoEnd => "no line `end` follows the script",
            BadSceneLine::NotNumber => "not a whole number of 64 bits",
            BadSceneLine::PastLastMoment => "past the last moment",
            BadSceneLine::EmptyFragment => "no piece has 0 bytes",
            BadSceneLine::NoDevice => "no such device",
            BadSceneLine::NotDigits => "not pairs of hexadecimal digits, or `-`",
            BadSceneLine::NotCounted => "the form is `KEY N TEXT`",
            BadSceneLine::NotFail => "the form is `fail DEVICE K ..`",
            BadSceneLine::NotRows => "the form is `rows fresh` or `rows none`",
            BadSceneLine::NotRow => {
                "the form is `row TAB A B VALUE`, `with TAB A B VALUE` or `without TAB A B`"
            }
            BadSceneLine::NoVolume => "no line `volume` comes before it",
            BadSceneLine::NotObject => "the form is `object NAME BYTES MOMENT`",
            BadSceneLine::NotStaged => "the form is `staged CLIENT NAME BYTES`",
            BadSceneLine::NoClient => "no such client",
            BadSceneLine::NotShow => "the form is `show rows` or `show blocks`",
            BadSceneLine::NotSweep => "the form is `for k FIRST..LAST DEVICE`",
            BadSceneLine::OutOfMemory => "out of memory",
        }
    }
}

impl From<AllocError> for BadSceneLine {
    fn from(_error: AllocError) -> BadSceneLine {
        BadSceneLine::OutOfMemory
    }
}

impl<T: Drop> From<AllocFailed<T>> for BadSceneLine {
    fn from(_failed: AllocFailed<T>) -> BadSceneLine {
        BadSceneLine::OutOfMemory
    }
}

/// The first line that is no line of a scene.
#[derive(Clone, Copy)]
pub struct BadScenes {
    /// Its number, from 1.
    pub number: u64,
    pub why: BadSceneLine,
}

/// Reads all scenes of a text. Fails at the first line that is none of a scene, or out of memory, with its number.
pub fn read_scenes(alloc: Global, text: &str) -> Result<Vec<Scene>, BadScenes> {
    let mut reader = SceneReader::new(alloc);
    let mut number = 0u64;
    for line in text.split('\n') {
        number = number.saturating_add(1);
        if let Err(why) = reader.line(line) {
            return Err(BadScenes { number, why });
        }
    }
    reader.end().map_err(|why| BadScenes { number, why })
}

/// Of which run a script is.
#[derive(Clone, Copy)]
enum ScriptKind {
    First,
    Further,
    List,
}

/// The scenes of the lines so far.
#[derive(Drop)]
struct SceneReader {
    alloc: Global,
    scenes: Vec<Scene>,
    /// The script whose lines these are, where they are those of one.
    kind: Option<ScriptKind>,
}

impl SceneReader {
    fn new(alloc: Global) -> SceneReader {
        SceneReader {
            alloc,
            scenes: Vec::new(alloc),
            kind: None,
        }
    }

    /// Reads the next line.
    fn line(&mut self, line: &str) -> Result<(), BadSceneLine> {
        if let Some(kind) = self.kind {
            return self.script_line(kind, line);
        }
        if line.is_empty() || line.starts_with("#") {
            return Ok(());
        }
        let (key, rest) = line.split_once(" ").unwrap_or((line, ""));
        match key {
            "scene" => self.begin(rest),
            "script" => self.begin_script(rest, false),
            "list" => self.begin_script(rest, true),
            _ => self.read_key(key, rest),
        }
    }

    /// The scenes, after the last line.
    fn end(self) -> Result<Vec<Scene>, BadSceneLine> {
        let SceneReader { scenes, kind, .. } = self;
        if kind.is_some() {
            return Err(BadSceneLine::NoEnd);
        }
        Ok(scenes)
    }

    fn read_key(&mut self, key: &str, rest: &str) -> Result<(), BadSceneLine> {
        match self.scenes.last_mut() {
            Some(scene) => read_key(self.alloc, scene, key, rest),
            None => Err(BadSceneLine::NoScene),
        }
    }

    fn begin(&mut self, name: &str) -> Result<(), BadSceneLine> {
        if name.is_empty() {
            return Err(BadSceneLine::NoName);
        }
        let name = String::from_str(self.alloc, name)?;
        self.scenes.push(Scene::new(self.alloc, name))?;
        Ok(())
    }

    fn begin_script(&mut self, rest: &str, is_list: bool) -> Result<(), BadSceneLine> {
        if !rest.is_empty() {
            return Err(BadSceneLine::NotAlone);
        }
        let Some(scene) = self.scenes.last() else {
            return Err(BadSceneLine::NoScene);
        };
        self.kind = Some(if is_list {
            ScriptKind::List
        } else {
            kind_of(scene)
        });
        Ok(())
    }

    fn script_line(&mut self, kind: ScriptKind, line: &str) -> Result<(), BadSceneLine> {
        if line == "end" {
            self.kind = None;
            return Ok(());
        }
        match self.scenes.last_mut() {
            Some(scene) => add_line(self.alloc, scene, kind, line),
            None => Err(BadSceneLine::NoScene),
        }
    }
}

/// Of which run a script is that begins now: of a further one where the scene has a script, and a run on what it left
/// comes last.
fn kind_of(scene: &Scene) -> ScriptKind {
    match scene.further.last() {
        Some(Further::Repeat(_)) if !scene.script.is_empty() => ScriptKind::Further,
        _ => ScriptKind::First,
    }
}

/// Reads a line by its key word.
fn read_key(alloc: Global, scene: &mut Scene, key: &str, rest: &str) -> Result<(), BadSceneLine> {
    match key {
        "words" | "word" | "long" => read_words(alloc, scene, key, rest),
        "lines" | "text" | "bytes" => read_piece(alloc, scene, key, rest),
        "again" | "try" | "then" | "volume" => read_run(alloc, scene, key, rest),
        "with" | "without" => alter(alloc, scene, key, rest),
        "rows" | "row" | "object" | "staged" => read_store(alloc, scene, key, rest),
        "clock" | "fail" | "in_pieces_of" => read_device(scene, key, rest),
        "show" => show(scene, rest),
        "for" => {
            scene.sweeps.push(sweep(rest)?)?;
            Ok(())
        }
        _ => Err(BadSceneLine::NoKey),
    }
}

/// Reads a line about the words of the first run.
fn read_words(alloc: Global, scene: &mut Scene, key: &str, rest: &str) -> Result<(), BadSceneLine> {
    match key {
        "words" => {
            scene.words = Some(words(alloc, rest)?);
            Ok(())
        }
        "word" => add_word(alloc, scene, String::from_str(alloc, rest)?),
        _ => add_word(alloc, scene, long_word(alloc, rest)?),
    }
}

/// Reads a line about what the keeper, the depot or the shelf holds.
fn read_store(alloc: Global, scene: &mut Scene, key: &str, rest: &str) -> Result<(), BadSceneLine> {
    match key {
        "rows" => scene.is_fresh = is_fresh(rest)?,
        "row" => scene.rows.push(row(alloc, rest)?)?,
        "object" => scene.objects.push(object(alloc, rest)?)?,
        _ => scene.staged.push(staged(alloc, rest)?)?,
    }
    Ok(())
}

/// Reads a line about how a device answers.
fn read_device(scene: &mut Scene, key: &str, rest: &str) -> Result<(), BadSceneLine> {
    match key {
        "clock" => scene.clock = moment(rest)?,
        "fail" => add_fails(scene, rest)?,
        _ => scene.most = most(rest)?,
    }
    Ok(())
}

/// Reads a line that is a fragment of the script.
fn read_piece(alloc: Global, scene: &mut Scene, key: &str, rest: &str) -> Result<(), BadSceneLine> {
    let fragment = fragment(alloc, key, rest)?;
    scene.script.push(fragment)?;
    Ok(())
}

fn fragment(alloc: Global, key: &str, rest: &str) -> Result<Fragment, BadSceneLine> {
    if key == "bytes" {
        return Ok(Fragment::Bytes(bytes(alloc, rest)?));
    }
    let (count, text) = counted(alloc, rest)?;
    Ok(if key == "lines" {
        Fragment::Lines(count, text)
    } else {
        Fragment::Text(count, text)
    })
}

/// Reads a line about what is done after the first run.
fn read_run(alloc: Global, scene: &mut Scene, key: &str, rest: &str) -> Result<(), BadSceneLine> {
    let run = match key {
        "again" => Further::Repeat(again(alloc, rest)?),
        "try" => Further::Try(words(alloc, rest)?),
        "volume" => Further::Volume(volume(alloc, rest)?),
        _ => Further::TryLine(String::from_str(alloc, rest)?),
    };
    scene.further.push(run)?;
    Ok(())
}

/// Adds a line to one of the scene's scripts.
fn add_line(
    alloc: Global,
    scene: &mut Scene,
    kind: ScriptKind,
    line: &str,
) -> Result<(), BadSceneLine> {
    let fragment = Fragment::Lines(1, String::from_str(alloc, line)?);
    match (kind, scene.further.last_mut()) {
        (ScriptKind::List, _) => scene.list.push(fragment)?,
        (ScriptKind::Further, Some(Further::Repeat(again))) => again.script.push(fragment)?,
        _ => scene.script.push(fragment)?,
    }
    Ok(())
}

/// A run on the world that the run before left: by the same words, or by these.
fn again(alloc: Global, rest: &str) -> Result<Repeat, BadSceneLine> {
    let words = match rest {
        "" => None,
        _ => Some(words(alloc, rest)?),
    };
    Ok(Repeat {
        words,
        script: Vec::new(alloc),
    })
}

/// The volume that the scene begins with, under a name.
fn volume(alloc: Global, name: &str) -> Result<Altered, BadSceneLine> {
    if name.is_empty() {
        return Err(BadSceneLine::NoName);
    }
    Ok(Altered {
        name: String::from_str(alloc, name)?,
        with: Vec::new(alloc),
        without: Vec::new(alloc),
    })
}

/// Reads a line about a row that the last volume has besides, or lacks.
fn alter(alloc: Global, scene: &mut Scene, key: &str, rest: &str) -> Result<(), BadSceneLine> {
    let Some(Further::Volume(altered)) = scene.further.last_mut() else {
        return Err(BadSceneLine::NoVolume);
    };
    if key == "with" {
        altered.with.push(row(alloc, rest)?)?;
    } else {
        altered.without.push(row_key(alloc, rest)?)?;
    }
    Ok(())
}

/// Words that one space parts, or none.
fn words(alloc: Global, rest: &str) -> Result<Words, BadSceneLine> {
    let mut all = Vec::new(alloc);
    if !rest.is_empty() {
        for word in rest.split(' ') {
            all.push(String::from_str(alloc, word)?)?;
        }
    }
    Ok(all)
}

/// Adds a word to those of the first run.
fn add_word(alloc: Global, scene: &mut Scene, word: String) -> Result<(), BadSceneLine> {
    match &mut scene.words {
        Some(all) => all.push(word)?,
        None => {
            let mut all = Vec::new(alloc);
            all.push(word)?;
            scene.words = Some(all);
        }
    }
    Ok(())
}

/// A count, and the text behind it.
fn counted(alloc: Global, rest: &str) -> Result<(u32, String), BadSceneLine> {
    let Some((count, text)) = rest.split_once(" ") else {
        return Err(BadSceneLine::NotCounted);
    };
    let Ok(count) = count.parse::<u32>() else {
        return Err(BadSceneLine::NotCounted);
    };
    Ok((count, String::from_str(alloc, text)?))
}

/// A word whose last letter stands as often as the count says.
fn long_word(alloc: Global, rest: &str) -> Result<String, BadSceneLine> {
    let (count, mut word) = counted(alloc, rest)?;
    let Some(last) = word.pop() else {
        return Err(BadSceneLine::NotCounted);
    };
    for _ in 0..count {
        word.push(last)?;
    }
    Ok(word)
}

fn number(text: &str) -> Result<u64, BadSceneLine> {
    text.parse::<u64>().map_err(|_| BadSceneLine::NotNumber)
}

fn moment(rest: &str) -> Result<Moment, BadSceneLine> {
    let seconds = number(rest)?;
    if seconds > LAST_MOMENT {
        return Err(BadSceneLine::PastLastMoment);
    }
    Ok(Moment(seconds))
}

fn most(rest: &str) -> Result<usize, BadSceneLine> {
    match number(rest)? {
        0 => Err(BadSceneLine::EmptyFragment),
        count => Ok(count as usize),
    }
}

fn device(name: &str) -> Result<WorldDevice, BadSceneLine> {
    WorldDevice::named(name).ok_or(BadSceneLine::NoDevice)
}

/// Adds calls that fail: a device, and their numbers.
fn add_fails(scene: &mut Scene, rest: &str) -> Result<(), BadSceneLine> {
    let Some((name, numbers)) = rest.split_once(" ") else {
        return Err(BadSceneLine::NotFail);
    };
    let device = device(name)?;
    for text in numbers.split(' ') {
        scene.fails.push((device, number(text)?))?;
    }
    Ok(())
}

fn is_fresh(rest: &str) -> Result<bool, BadSceneLine> {
    match rest {
        "fresh" => Ok(true),
        "none" => Ok(false),
        _ => Err(BadSceneLine::NotRows),
    }
}

/// Bytes in hexadecimal digits, or `-` for none.
fn bytes(alloc: Global, text: &str) -> Result<Vec<u8>, BadSceneLine> {
    if text == "-" {
        return Ok(Vec::new(alloc));
    }
    match hex::decode(alloc, text) {
        Ok(bytes) => Ok(bytes),
        Err(hex::FromHexError::OutOfMemory) => Err(BadSceneLine::OutOfMemory),
        Err(_) => Err(BadSceneLine::NotDigits),
    }
}

/// Bytes in parts that one space parts, each in hexadecimal digits, or `-` for none.
fn bytes_in_parts(alloc: Global, text: &str) -> Result<Vec<u8>, BadSceneLine> {
    let mut all = Vec::new(alloc);
    for part in text.split(' ') {
        all.extend_from_slice(bytes(alloc, part)?.as_slice())?;
    }
    Ok(all)
}

/// A row: its table, number, bytes and value.
fn row(alloc: Global, rest: &str) -> Result<(RowKey, Bytes), BadSceneLine> {
    let wanted = BadSceneLine::NotRow;
    let (tab, rest) = rest.split_once(" ").ok_or(wanted)?;
    let (a, rest) = rest.split_once(" ").ok_or(wanted)?;
    let (b, value) = rest.split_once(" ").ok_or(wanted)?;
    let key = key_of(alloc, tab, a, b)?;
    let value = Sequence::from_vec(bytes_in_parts(alloc, value)?);
    Ok((key, value))
}

/// The key of a row: its table, number and bytes.
fn row_key(alloc: Global, rest: &str) -> Result<RowKey, BadSceneLine> {
    let wanted = BadSceneLine::NotRow;
    let (tab, rest) = rest.split_once(" ").ok_or(wanted)?;
    let (a, b) = rest.split_once(" ").ok_or(wanted)?;
    key_of(alloc, tab, a, b)
}

fn key_of(alloc: Global, tab: &str, a: &str, b: &str) -> Result<RowKey, BadSceneLine> {
    let Ok(tab) = tab.parse::<u8>() else {
        return Err(BadSceneLine::NotRow);
    };
    Ok(RowKey {
        tab,
        a: number(a)?,
        b: Sequence::from_vec(bytes(alloc, b)?),
    })
}

/// An object of the depot: its name, bytes and moment.
fn object(alloc: Global, rest: &str) -> Result<Object, BadSceneLine> {
    let wanted = BadSceneLine::NotObject;
    let (name, rest) = rest.split_once(" ").ok_or(wanted)?;
    let (bytes, at) = rest.rsplit_once(" ").ok_or(wanted)?;
    Ok(Object {
        name: named(alloc, name, wanted)?,
        bytes: Sequence::from_vec(bytes_in_parts(alloc, bytes)?),
        at: moment(at)?,
    })
}

/// A block that a client has staged: the client, the block's name and bytes.
fn staged(alloc: Global, rest: &str) -> Result<Staged, BadSceneLine> {
    let wanted = BadSceneLine::NotStaged;
    let (letter, rest) = rest.split_once(" ").ok_or(wanted)?;
    let (name, bytes) = rest.split_once(" ").ok_or(wanted)?;
    Ok(Staged {
        client: client(letter)?,
        name: named(alloc, name, wanted)?,
        bytes: Sequence::from_vec(bytes_in_parts(alloc, bytes)?),
    })
}

/// The client of a letter.
fn client(letter: &str) -> Result<ClientId, BadSceneLine> {
    match letter {
        "A" => Ok(ClientId(0)),
        "B" => Ok(ClientId(1)),
        "C" => Ok(ClientId(2)),
        "D" => Ok(ClientId(3)),
        "E" => Ok(ClientId(4)),
        "F" => Ok(ClientId(5)),
        "G" => Ok(ClientId(6)),
        "H" => Ok(ClientId(7)),
        _ => Err(BadSceneLine::NoClient),
    }
}

/// A name of an object or a block, which is never empty.
fn named(alloc: Global, text: &str, wanted: BadSceneLine) -> Result<Name, BadSceneLine> {
    if text.is_empty() {
        return Err(wanted);
    }
    Ok(copied(alloc, text.as_bytes())?)
}

fn show(scene: &mut Scene, rest: &str) -> Result<(), BadSceneLine> {
    match rest {
        "rows" => {
            scene.shows_rows = true;
            Ok(())
        }
        "blocks" => {
            scene.shows_blocks = true;
            Ok(())
        }
        _ => Err(BadSceneLine::NotShow),
    }
}

/// Which calls fail one after the other, as `k 1..60 keeper`.
fn sweep(rest: &str) -> Result<SweepRun, BadSceneLine> {
    let wanted = BadSceneLine::NotSweep;
    let range = rest.strip_prefix("k ").ok_or(wanted)?;
    let (range, name) = range.split_once(" ").ok_or(wanted)?;
    let (first, last) = range.split_once("..").ok_or(wanted)?;
    let device = match name {
        "each" => None,
        _ => Some(device(name)?),
    };
    Ok(SweepRun {
        first: number(first)?,
        last: number(last)?,
        device,
    })
}
