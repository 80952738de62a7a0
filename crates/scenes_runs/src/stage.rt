//! Stages: devices in memory, and runs over them.
use crate::objects::{objects, objects_of, staged, staged_of};
use crate::rows::{altered_rows, rows, rows_of};
use crate::texts::text_of;
use jv_model::{Bytes, Journal, Rows, Sequence};
use jv_outside::{
    Fails, MemCarrier, MemClock, MemDepot, MemKeeper, MemShelf, MemSink, MemSource, NumberList,
    ObjectList, StagedList,
};
use scenes_text::{Altered, Scene, Variant, WorldDevice};
use std::alloc::{AllocError, Global};

/// What a run reads and prints.
#[derive(Drop)]
pub struct Streams<S, O, E> {
    pub source: S,
    pub out: O,
    pub err: E,
}

/// Streams in memory.
type MemStreams = Streams<MemSource, MemSink, MemSink>;

/// What holds a volume.
#[derive(Drop)]
pub struct Stores<K, D, H> {
    pub keeper: K,
    pub depot: D,
    pub shelf: H,
}

/// Stores in memory.
type MemStores = Stores<MemKeeper, MemDepot, MemShelf>;

/// What stores have: rows, objects, and the blocks that are staged.
#[derive(Drop)]
pub struct Stock {
    pub rows: Rows,
    pub objects: ObjectList,
    pub staged: StagedList,
}

impl Stock {
    /// No rows, objects or blocks.
    fn none(alloc: Global) -> Stock {
        Stock {
            rows: Sequence::new(alloc),
            objects: Sequence::new(alloc),
            staged: Sequence::new(alloc),
        }
    }
}

/// What a world is made of for each run. It is generic since what takes it apart is proved much faster for any devices
/// than for those in memory.
#[derive(Drop)]
pub struct Parts<S, O, E, K, D, H, C> {
    pub streams: Streams<S, O, E>,
    pub stores: Stores<K, D, H>,
    pub clock: C,
    /// The calls of a run's carrier that fail.
    pub carrier: NumberList,
    pub journal: Journal,
}

/// The parts of a world in memory.
pub type MemParts = Parts<MemSource, MemSink, MemSink, MemKeeper, MemDepot, MemShelf, MemClock>;

/// Who runs words on a stage.
pub trait Player {
    /// Runs words over the parts of a stage, with this carrier, and puts back what is left of them. Returns the status.
    /// On error nothing was run.
    fn run(
        &self,
        alloc: Global,
        words: &[String],
        parts: &mut Option<MemParts>,
        carrier: MemCarrier,
    ) -> Result<u8, AllocError>;
}

/// A place for the parts of one world at a time. They are dear to drop, so runs borrow their stage, and nobody else has
/// them.
#[derive(Drop)]
pub struct SceneStage {
    parts: Option<MemParts>,
}

/// The outcome of a run.
#[derive(Drop)]
pub struct Played {
    pub status: u8,
    /// What `out` gained.
    pub out: Vec<u8>,
    /// What standard error gained.
    pub err: Vec<u8>,
    /// The number of the journal's entries.
    pub entries: usize,
    counts: [Count; 8],
}

/// How often a device was called since its world was made, and how often that failed.
#[derive(Clone, Copy)]
struct Count {
    made: u64,
    faults: u64,
}

impl Count {
    const NONE: Count = Count { made: 0, faults: 0 };
}

impl Played {
    /// How often a device was called since the world was made.
    pub fn made(&self, device: WorldDevice) -> u64 {
        self.count(device).made
    }

    /// How often a device's calls failed since the world was made.
    pub fn faults(&self, device: WorldDevice) -> u64 {
        self.count(device).faults
    }

    fn count(&self, device: WorldDevice) -> Count {
        match self.counts.get(device.place()) {
            Some(count) => *count,
            None => Count::NONE,
        }
    }
}

/// The calls of the streams that fail.
#[derive(Drop)]
struct StreamFails {
    source: Fails,
    out: Fails,
    err: Fails,
}

/// The calls of the streams that fail in a variant of a scene.
fn stream_fails(
    alloc: Global,
    scene: &Scene,
    variant: Variant<'_>,
) -> Result<StreamFails, AllocError> {
    Ok(StreamFails {
        source: scene.fails_of(alloc, WorldDevice::Source, variant)?,
        out: scene.fails_of(alloc, WorldDevice::Out, variant)?,
        err: scene.fails_of(alloc, WorldDevice::Err, variant)?,
    })
}

/// Streams of which these calls fail, and that return and take at most this many bytes a call, or one where that is 0.
fn new_streams(alloc: Global, script: Bytes, fails: StreamFails, most: usize) -> MemStreams {
    let most = most.max(1);
    let StreamFails { source, out, err } = fails;
    Streams {
        source: MemSource::new(script, source).in_pieces_of(most),
        out: MemSink::new(Sequence::new(alloc), out).in_pieces_of(most),
        err: MemSink::new(Sequence::new(alloc), err).in_pieces_of(most),
    }
}

/// The streams of a variant of a scene.
fn streams_of(
    alloc: Global,
    scene: &Scene,
    variant: Variant<'_>,
) -> Result<MemStreams, AllocError> {
    let fails = stream_fails(alloc, scene, variant)?;
    let script = scene.source(alloc, variant)?;
    Ok(new_streams(alloc, script, fails, scene.most))
}

/// What the stores have that a scene begins with.
fn stock_of(alloc: Global, scene: &Scene) -> Result<Stock, AllocError> {
    Ok(Stock {
        rows: rows(alloc, scene)?,
        objects: objects(alloc, scene)?,
        staged: staged(alloc, scene)?,
    })
}

/// What the stores have that a scene begins with, with altered rows.
fn altered_stock(alloc: Global, scene: &Scene, altered: &Altered) -> Result<Stock, AllocError> {
    Ok(Stock {
        rows: altered_rows(alloc, scene, altered)?,
        objects: objects(alloc, scene)?,
        staged: staged(alloc, scene)?,
    })
}

/// The calls of the stores that fail.
#[derive(Drop)]
struct StoreFails {
    keeper: Fails,
    depot: Fails,
    shelf: Fails,
}

/// The calls of the stores that fail in a variant of a scene.
fn store_fails(
    alloc: Global,
    scene: &Scene,
    variant: Variant<'_>,
) -> Result<StoreFails, AllocError> {
    Ok(StoreFails {
        keeper: scene.fails_of(alloc, WorldDevice::Keeper, variant)?,
        depot: scene.fails_of(alloc, WorldDevice::Depot, variant)?,
        shelf: scene.fails_of(alloc, WorldDevice::Shelf, variant)?,
    })
}

/// Stores that have this stock, and of which these calls fail.
fn new_stores(alloc: Global, stock: Stock, fails: StoreFails) -> MemStores {
    Stores {
        keeper: MemKeeper::new(alloc, stock.rows, fails.keeper),
        depot: MemDepot::new(alloc, stock.objects, fails.depot),
        shelf: MemShelf::new(alloc, stock.staged, fails.shelf),
    }
}

/// The parts of a variant of a scene, with these stores.
fn parts_with(
    alloc: Global,
    scene: &Scene,
    variant: Variant<'_>,
    stores: MemStores,
) -> Result<MemParts, AllocError> {
    let clock = scene.fails_of(alloc, WorldDevice::Clock, variant)?;
    let Fails::At(carrier) = scene.fails_of(alloc, WorldDevice::Carrier, variant)?;
    let streams = streams_of(alloc, scene, variant)?;
    Ok(Parts {
        streams,
        stores,
        clock: MemClock::new(scene.clock, clock),
        carrier,
        journal: Journal::new(alloc),
    })
}

impl SceneStage {
    /// An empty stage.
    pub fn new() -> SceneStage {
        SceneStage { parts: None }
    }

    /// Sets the stage for a scene, or a variant of it.
    pub fn set(
        &mut self,
        alloc: Global,
        scene: &Scene,
        variant: Variant<'_>,
    ) -> Result<(), AllocError> {
        let stock = stock_of(alloc, scene)?;
        self.put(alloc, scene, variant, stock)
    }

    /// Sets the stage for a scene with altered rows.
    pub fn set_altered(
        &mut self,
        alloc: Global,
        scene: &Scene,
        altered: &Altered,
    ) -> Result<(), AllocError> {
        let stock = altered_stock(alloc, scene, altered)?;
        self.put(alloc, scene, Variant::Same, stock)
    }

    /// Sets the stage for a variant of a scene whose stores have this stock.
    pub fn put(
        &mut self,
        alloc: Global,
        scene: &Scene,
        variant: Variant<'_>,
        stock: Stock,
    ) -> Result<(), AllocError> {
        let stores = new_stores(alloc, stock, store_fails(alloc, scene, variant)?);
        let parts = parts_with(alloc, scene, variant, stores)?;
        self.parts = Some(parts);
        Ok(())
    }

    /// Has the source return another script, at no call of which it fails.
    pub fn set_script(&mut self, alloc: Global, script: Bytes) {
        if let Some(parts) = &mut self.parts {
            let never = Fails::At(Sequence::new(alloc));
            parts.streams.source = MemSource::new(script, never);
        }
    }

    /// What the stores have.
    pub fn stock(&mut self, alloc: Global) -> Result<Stock, AllocError> {
        let Some(parts) = &mut self.parts else {
            return Ok(Stock::none(alloc));
        };
        Ok(Stock {
            rows: rows_of(alloc, &mut parts.stores.keeper)?,
            objects: objects_of(alloc, &mut parts.stores.depot)?,
            staged: staged_of(alloc, &mut parts.stores.shelf)?,
        })
    }

    /// The place where a device is opened, if it is one that has a place and shows it, and is opened.
    pub fn opened(&self, device: WorldDevice) -> Option<&[u8]> {
        let Some(parts) = &self.parts else {
            return None;
        };
        match device {
            WorldDevice::Keeper => parts.stores.keeper.opened(),
            WorldDevice::Depot => parts.stores.depot.opened(),
            WorldDevice::Shelf => parts.stores.shelf.opened(),
            _ => None,
        }
    }

    /// Runs words, and returns the outcome. Where a call of the carrier failed, none fails in later runs.
    pub fn play(
        &mut self,
        alloc: Global,
        words: &[String],
        player: &impl Player,
    ) -> Result<Played, AllocError> {
        let (taken, said) = self.lengths();
        let carrier = MemCarrier::new(alloc, self.failing_carrier(alloc)?);
        let status = player.run(alloc, words, &mut self.parts, carrier)?;
        let played = self.played(alloc, status, taken, said)?;
        if played.faults(WorldDevice::Carrier) > 0 {
            self.mend_carrier(alloc);
        }
        Ok(played)
    }

    /// The calls of the next run's carrier that fail.
    fn failing_carrier(&self, alloc: Global) -> Result<Fails, AllocError> {
        let mut numbers = Sequence::new(alloc);
        if let Some(parts) = &self.parts {
            for number in parts.carrier.as_slice() {
                numbers.push(*number)?;
            }
        }
        Ok(Fails::At(numbers))
    }

    fn mend_carrier(&mut self, alloc: Global) {
        if let Some(parts) = &mut self.parts {
            parts.carrier = Sequence::new(alloc);
        }
    }

    /// How many bytes `out` and standard error have taken.
    fn lengths(&self) -> (usize, usize) {
        match &self.parts {
            Some(parts) => (
                parts.streams.out.taken().len(),
                parts.streams.err.taken().len(),
            ),
            None => (0, 0),
        }
    }

    /// The outcome of a run before which `out` and standard error had taken these numbers of bytes.
    fn played(
        &self,
        alloc: Global,
        status: u8,
        taken: usize,
        said: usize,
    ) -> Result<Played, AllocError> {
        let out = self.gained_out(alloc, taken)?;
        let err = self.gained_err(alloc, said)?;
        let carrier = carrier_faults(out.as_slice(), err.as_slice());
        Ok(Played {
            status,
            out,
            err,
            entries: self.entries(),
            counts: self.counts(carrier),
        })
    }

    fn entries(&self) -> usize {
        match &self.parts {
            Some(parts) => parts.journal.len(),
            None => 0,
        }
    }

    fn gained_out(&self, alloc: Global, before: usize) -> Result<Vec<u8>, AllocError> {
        match &self.parts {
            Some(parts) => gained(alloc, &parts.streams.out, before),
            None => Ok(Vec::new(alloc)),
        }
    }

    fn gained_err(&self, alloc: Global, before: usize) -> Result<Vec<u8>, AllocError> {
        match &self.parts {
            Some(parts) => gained(alloc, &parts.streams.err, before),
            None => Ok(Vec::new(alloc)),
        }
    }

    /// The counts of all devices, in their order. The carrier, which is in a box, shows none.
    fn counts(&self, carrier: u64) -> [Count; 8] {
        [
            self.count(WorldDevice::Source, carrier),
            self.count(WorldDevice::Out, carrier),
            self.count(WorldDevice::Err, carrier),
            self.count(WorldDevice::Clock, carrier),
            self.count(WorldDevice::Keeper, carrier),
            self.count(WorldDevice::Depot, carrier),
            self.count(WorldDevice::Carrier, carrier),
            self.count(WorldDevice::Shelf, carrier),
        ]
    }

    fn count(&self, device: WorldDevice, carrier: u64) -> Count {
        let Some(parts) = &self.parts else {
            return Count::NONE;
        };
        let (made, faults) = match device {
            WorldDevice::Source => (parts.streams.source.made(), parts.streams.source.faults()),
            WorldDevice::Out => (parts.streams.out.made(), parts.streams.out.faults()),
            WorldDevice::Err => (parts.streams.err.made(), parts.streams.err.faults()),
            WorldDevice::Clock => (parts.clock.made(), parts.clock.faults()),
            WorldDevice::Keeper => (parts.stores.keeper.made(), parts.stores.keeper.faults()),
            WorldDevice::Depot => (parts.stores.depot.made(), parts.stores.depot.faults()),
            WorldDevice::Shelf => (parts.stores.shelf.made(), parts.stores.shelf.faults()),
            WorldDevice::Carrier => (0, carrier),
        };
        Count { made, faults }
    }
}

/// What a sink has taken besides the first bytes.
fn gained(alloc: Global, sink: &MemSink, before: usize) -> Result<Vec<u8>, AllocError> {
    sink.taken().iter().skip(before).copied().collect(alloc)
}

/// How often a run says that its carrier failed.
fn carrier_faults(out: &[u8], err: &[u8]) -> u64 {
    let answers = count_lines(out, "err EIO carrier");
    answers.saturating_add(count_lines(err, "juicevol: carrier failed"))
}

/// How many lines of a text are this one.
pub fn count_lines(text: &[u8], wanted: &str) -> u64 {
    text_of(text).lines().filter(|line| *line == wanted).count() as u64
}
