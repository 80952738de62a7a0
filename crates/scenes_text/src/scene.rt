//! Scenes as values.
use crate::device::WorldDevice;
use jv_model::{Bytes, Moment, RowKey, Sequence, copied};
use jv_outside::{Fails, Object, Staged};
use std::alloc::{AllocError, Global};

/// A command's words.
pub type Words = Vec<String>;

/// A fragment of a script.
#[derive(Drop)]
pub enum Fragment {
    /// A line, this many times.
    Lines(u32, String),
    /// A text without a line feed, this many times.
    Text(u32, String),
    Bytes(Vec<u8>),
}

/// A run on the world that the run before left.
#[derive(Drop)]
pub struct Repeat {
    /// Its words, where they are others than the scene's.
    pub words: Option<Words>,
    /// Its script; none where it goes on with what the run before left of its own.
    pub script: Vec<Fragment>,
}

/// A volume that is what the scene begins with but for some rows.
#[derive(Drop)]
pub struct Altered {
    pub name: String,
    /// Rows that it has besides, or in place of those with their keys.
    pub with: Vec<(RowKey, Bytes)>,
    /// The keys of rows that it lacks.
    pub without: Vec<RowKey>,
}

/// What is done after the first run.
#[derive(Drop)]
pub enum Further {
    Repeat(Repeat),
    /// By words on a world of its own. One line is printed of it.
    Try(Words),
    /// By the scene's words on a world of its own whose script ends with this line. One line is printed of it.
    TryLine(String),
    /// No run: it is said whether this volume is whole.
    Volume(Altered),
}

/// In what a run's world is another than the scene's.
#[derive(Clone, Copy)]
pub enum Variant<'a> {
    Same,
    /// A further call of a device fails, counted from 1.
    Fails(WorldDevice, u64),
    /// The script has one more line.
    Line(&'a str),
    /// The script lacks the fragment of this number, from 0; comments don't count, and are left out too.
    Without(usize),
    /// The script is that which lists what is left, and no call fails.
    List,
}

/// Runs in each of which one more call fails.
#[derive(Clone, Copy)]
pub struct SweepRun {
    /// The first call that fails, from 1.
    pub first: u64,
    /// The last call that fails.
    pub last: u64,
    /// The device whose calls fail, or each that the scene prints in turn.
    pub device: Option<WorldDevice>,
}

impl SweepRun {
    /// Whether calls of this device fail.
    pub fn is_of(&self, scene: &Scene, device: WorldDevice) -> bool {
        match self.device {
            Some(only) => only == device,
            None => scene.shows(device),
        }
    }
}

/// What a scene begins with, and what is done on it.
#[derive(Drop)]
pub struct Scene {
    pub name: String,
    /// The words of the first run, where there is one.
    pub words: Option<Words>,
    pub clock: Moment,
    /// Calls that fail, from 1.
    pub fails: Vec<(WorldDevice, u64)>,
    /// The most bytes that a source returns or a sink takes at a call, above 0.
    pub most: usize,
    /// Whether the rows of a fresh volume are there.
    pub is_fresh: bool,
    /// Further rows; they stand in place of fresh ones with their keys.
    pub rows: Vec<(RowKey, Bytes)>,
    /// The objects that the depot has.
    pub objects: Vec<Object>,
    /// The blocks that clients have staged on the shelf.
    pub staged: Vec<Staged>,
    pub script: Vec<Fragment>,
    /// The script of a run that lists what is left; none where nothing is listed.
    pub list: Vec<Fragment>,
    pub shows_rows: bool,
    /// Whether the devices for blocks are printed too.
    pub shows_blocks: bool,
    pub further: Vec<Further>,
    pub sweeps: Vec<SweepRun>,
}

impl Scene {
    /// A scene in which nothing is run yet: a fresh volume, an empty script, and devices that never fail.
    pub fn new(alloc: Global, name: String) -> Scene {
        Scene {
            name,
            words: None,
            clock: Moment(1_000),
            fails: Vec::new(alloc),
            most: usize::MAX,
            is_fresh: true,
            rows: Vec::new(alloc),
            objects: Vec::new(alloc),
            staged: Vec::new(alloc),
            script: Vec::new(alloc),
            list: Vec::new(alloc),
            shows_rows: false,
            shows_blocks: false,
            further: Vec::new(alloc),
            sweeps: Vec::new(alloc),
        }
    }

    /// The words of the first run.
    pub fn words(&self) -> &[String] {
        match &self.words {
            Some(words) => words.as_slice(),
            None => &[],
        }
    }

    /// The bytes of the script. The only error is out of memory.
    pub fn source(&self, alloc: Global, variant: Variant<'_>) -> Result<Bytes, AllocError> {
        match variant {
            Variant::List => bytes_of(alloc, self.list.as_slice()),
            Variant::Without(left_out) => self.source_without(alloc, left_out),
            Variant::Line(line) => self.source_with(alloc, line),
            Variant::Same | Variant::Fails(_, _) => bytes_of(alloc, self.script.as_slice()),
        }
    }

    /// The bytes of the script without comments, and without the fragment of this number, from 0, among the others.
    fn source_without(&self, alloc: Global, left_out: usize) -> Result<Bytes, AllocError> {
        let mut bytes = Vec::new(alloc);
        let answered = self.script.iter().filter(|fragment| !is_comment(fragment));
        for (number, fragment) in answered.enumerate() {
            if number != left_out {
                extend_by(&mut bytes, fragment)?;
            }
        }
        Ok(Sequence::from_vec(bytes))
    }

    /// The bytes of the script and of one more line.
    fn source_with(&self, alloc: Global, line: &str) -> Result<Bytes, AllocError> {
        let mut bytes = bytes_of(alloc, self.script.as_slice())?.into_vec();
        extend(&mut bytes, 1, line, b"\n")?;
        Ok(Sequence::from_vec(bytes))
    }

    /// Whether what is seen of a device is printed.
    pub fn shows(&self, device: WorldDevice) -> bool {
        self.shows_blocks || !device.is_for_blocks()
    }

    /// Whether each fragment of the script but comments is one operation that is run to its end: one line, which has
    /// one answer.
    pub fn is_plain(&self) -> bool {
        self.script
            .iter()
            .all(|fragment| is_comment(fragment) || is_plain(fragment))
    }

    /// The calls of a device that fail. The only error is out of memory.
    pub fn fails_of(
        &self,
        alloc: Global,
        device: WorldDevice,
        variant: Variant<'_>,
    ) -> Result<Fails, AllocError> {
        let mut numbers = Sequence::new(alloc);
        if matches!(variant, Variant::List) {
            return Ok(Fails::At(numbers));
        }
        for (failing, number) in self.fails.as_slice() {
            if *failing == device {
                numbers.push(*number)?;
            }
        }
        match variant {
            Variant::Fails(failing, number) if failing == device => numbers.push(number)?,
            _ => {}
        }
        Ok(Fails::At(numbers))
    }
}

/// The bytes of fragments. The only error is out of memory.
pub fn bytes_of(alloc: Global, fragments: &[Fragment]) -> Result<Bytes, AllocError> {
    let mut bytes = Vec::new(alloc);
    for fragment in fragments {
        extend_by(&mut bytes, fragment)?;
    }
    Ok(Sequence::from_vec(bytes))
}

/// Adds the bytes of a fragment.
fn extend_by(bytes: &mut Vec<u8>, fragment: &Fragment) -> Result<(), AllocError> {
    match fragment {
        Fragment::Lines(count, text) => extend(bytes, *count, text.as_str(), b"\n"),
        Fragment::Text(count, text) => extend(bytes, *count, text.as_str(), b""),
        Fragment::Bytes(more) => bytes.extend_from_slice(more.as_slice()),
    }
}

/// Adds a text and what follows it, `count` times.
fn extend(bytes: &mut Vec<u8>, count: u32, text: &str, end: &[u8]) -> Result<(), AllocError> {
    for _ in 0..count {
        bytes.extend_from_slice(text.as_bytes())?;
        bytes.extend_from_slice(end)?;
    }
    Ok(())
}

/// Whether a fragment is a comment line, or several, which have no answers.
fn is_comment(fragment: &Fragment) -> bool {
    matches!(fragment, Fragment::Lines(_, line) if line.starts_with("#"))
}

fn is_plain(fragment: &Fragment) -> bool {
    let Fragment::Lines(1, line) = fragment else {
        return false;
    };
    match line.as_str().split_once(" ") {
        Some((_, operation)) => {
            !operation.starts_with("begin ") && operation != "step" && operation != "run"
        }
        None => false,
    }
}
