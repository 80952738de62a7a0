//! What a handle saw of its file, window by window.
use jv_model::List;
use std::alloc::{AllocError, Global};
use std::collections::BTreeMap;
use std::marker::Model;

/// A window of a file as a look saw it.
#[derive(Debug, Drop, PartialEq, Eq)]
pub struct View {
    /// The number of the journal entry that took it.
    pub entry: u64,
    /// The length of the whole file in bytes.
    pub length: u64,
    /// The records of the window, the latest last.
    pub list: List,
}

/// The views of one handle, at most one for each window.
#[derive(Drop)]
pub struct Views {
    by_window: BTreeMap<u32, View>,
}

impl Model for Views {
    ghost use Rattle.jv_client_handles.specs.Views.{SeenViews, AreRecords};

    ghost Value = { SeenViews };

    ghost view = { λ v. record { entries = v.by_window.entries } };

    ghost invariant = { λ v. AreRecords v.by_window.entries };
}

impl Views {
    ghost use Rattle.std.specs.Prelude.{◌≡◌, IfSome, OnOk, OnErr};
    ghost use Rattle.std.specs.Option.{option_copied};
    ghost use Rattle.jv_client_handles.specs.Views.{HasRecords, no_views, view_at, with_view, without_view};

    /// No views. Takes no memory.
    pub fn new(alloc: Global) -> Views
        ensures { result ≡ no_views }
    {
        Views {
            by_window: BTreeMap::new(alloc),
        }
    }

    /// The view of a window, if there is one. Takes time that is logarithmic in the number of windows seen.
    pub fn at(&self, window: u32) -> Option<&View>
        ensures view { option_copied result ≡ view_at self.now window }
        ensures records { IfSome (option_copied result) HasRecords }
    {
        self.by_window.get(&window)
    }

    /// Keeps the view of a window, in place of the one before. The only error is out of memory, for a window that has
    /// none; nothing has changed then.
    pub fn set(&mut self, window: u32, view: View) -> Result<(), AllocError>
        requires { HasRecords view }
        ensures set { OnOk result (self.new ≡ with_view window view self.old) }
        ensures err { OnErr result (self.new ≡ self.old) }
    {
        match self.by_window.insert(window, view) {
            Ok(_) => Ok(()),
            Err(_) => Err(AllocError),
        }
    }

    /// Drops the view of a window, if there is one. Takes no memory.
    pub fn remove(&mut self, window: u32)
        ensures { self.new ≡ without_view window self.old }
    {
        self.by_window.remove(&window);
    }

    /// Drops all views. Takes no memory.
    pub fn clear(&mut self)
        ensures { self.new ≡ no_views }
    {
        self.by_window.clear();
    }
}
