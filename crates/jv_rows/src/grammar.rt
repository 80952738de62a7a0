//! The grammars of the ten tables, by the types of their values.
ghost use Rattle.std.specs.Prelude.{◌≡◌, ℕ, List, [], Bool, true, Option, Some, IfOk, IsTrue};
ghost use Rattle.std.specs.Option.{option_map};
ghost use Rattle.jv_model.specs.declared.tables.TheConstants.{TABLE_OF_COUNTERS, TABLE_OF_DEAD, TABLE_OF_DROPPED, TABLE_OF_EDGES, TABLE_OF_LISTS, TABLE_OF_NODES, TABLE_OF_SESSIONS, TABLE_OF_SETTING, TABLE_OF_SLICES, TABLE_OF_SUSTAINED};
ghost use Rattle.jv_model.specs.declared.row.Row.{Row};
ghost use Rattle.jv_model.specs.declared.row.Row.TheVariants.{OfSetting, OfCounters, OfNode, OfEdge, OfList, OfSlice, OfSession, OfSustained, OfDropped, OfDead};
ghost use Rattle.jv_model.specs.promise.rows.RowGrammar.{is_setting, setting_bytes, setting_of, is_counters, counters_bytes, counters_of, is_node, node_bytes, node_of, is_edge, edge_bytes, edge_of, is_list, list_bytes, list_of, is_slice, slice_bytes, slice_of, is_session, session_bytes, session_of_bytes, sustained_of, dropped_bytes, dropped_of, dead_bytes, dead_of, row_of};
ghost use Rattle.jv_rows.specs.Reads.{ReadsAs, IsSpelled};
ghost use Rattle.jv_rows.specs.Tables.{setting_row, counters_row, node_row, edge_row, list_row, slice_row, session_row, sustained_row, dropped_row, dead_row};

use crate::misread::Misread;
use crate::parsing::{
    parse_counters, parse_dead, parse_dropped, parse_edge, parse_list, parse_node, parse_session,
    parse_setting, parse_slice, parse_sustained,
};
use crate::spelling::{
    spell_counters, spell_dead, spell_dropped, spell_edge, spell_list, spell_node, spell_session,
    spell_slice,
};
use crate::widths::{
    has_counters_widths, has_dead_widths, has_dropped_widths, has_edge_widths, has_list_widths,
    has_node_widths, has_session_widths, has_slice_widths,
};
use jv_model::{Bytes, Counters, Dead, Dropped, Edge, List, Node, Session, Setting, SliceRow};
use std::alloc::{AllocError, Global};

/// The values of a table.
pub(crate) trait Grammar: Sized + Drop {
    // The table's number.
    ghost tab: { ℕ };

    // A value as a row of the table.
    ghost row_as: { Self → Row };

    // The value that bytes spell, if they do.
    ghost read_as: { List ℕ → Option Self };

    // The bytes of a value.
    ghost spelled_as: { Self → List ℕ };

    // What a value may be.
    ghost is_allowed: { Self → Bool };

    /// The value that the bytes spell.
    fn parse(alloc: Global, bytes: &[u8]) -> Result<Self, Misread>
        ensures reads { ReadsAs result (read_as bytes.now) }
        ensures sound { IfOk result (IsSpelled read_as spelled_as is_allowed bytes.now) };

    // Bytes spell a row of the table where they spell a value.
    ghost reads_row: { (bytes : List ℕ) → row_of tab bytes ≡ option_map row_as (read_as bytes) };
}

/// The values of a table that a transaction writes.
pub(crate) trait Spelled: Grammar {
    /// The bytes of a value, which spell its row.
    fn spell(&self, alloc: Global) -> Result<Bytes, AllocError>
        requires { IsTrue (Self.is_allowed self.now) }
        ensures { IfOk result (λ bytes. row_of Self.tab bytes ≡ Some (Self.row_as self.now)) };
}

impl Grammar for Setting {
    ghost tab = { TABLE_OF_SETTING };

    ghost row_as = { OfSetting };

    ghost read_as = { setting_of };

    ghost spelled_as = { setting_bytes };

    ghost is_allowed = { is_setting };

    fn parse(alloc: Global, bytes: &[u8]) -> Result<Setting, Misread> {
        parse_setting(alloc, bytes)
    }

    ghost reads_row = { setting_row };
}

impl Grammar for Counters {
    ghost tab = { TABLE_OF_COUNTERS };

    ghost row_as = { OfCounters };

    ghost read_as = { counters_of };

    ghost spelled_as = { counters_bytes };

    ghost is_allowed = { is_counters };

    fn parse(_alloc: Global, bytes: &[u8]) -> Result<Counters, Misread> {
        parse_counters(bytes)
    }

    ghost reads_row = { counters_row };
}

impl Spelled for Counters {
    fn spell(&self, alloc: Global) -> Result<Bytes, AllocError> {
        has_counters_widths(self);
        spell_counters(alloc, self)
    }
}

impl Grammar for Node {
    ghost tab = { TABLE_OF_NODES };

    ghost row_as = { OfNode };

    ghost read_as = { node_of };

    ghost spelled_as = { node_bytes };

    ghost is_allowed = { is_node };

    fn parse(alloc: Global, bytes: &[u8]) -> Result<Node, Misread> {
        parse_node(alloc, bytes)
    }

    ghost reads_row = { node_row };
}

impl Spelled for Node {
    fn spell(&self, alloc: Global) -> Result<Bytes, AllocError> {
        has_node_widths(self);
        spell_node(alloc, self)
    }
}

impl Grammar for Edge {
    ghost tab = { TABLE_OF_EDGES };

    ghost row_as = { OfEdge };

    ghost read_as = { edge_of };

    ghost spelled_as = { edge_bytes };

    ghost is_allowed = { is_edge };

    fn parse(_alloc: Global, bytes: &[u8]) -> Result<Edge, Misread> {
        parse_edge(bytes)
    }

    ghost reads_row = { edge_row };
}

impl Spelled for Edge {
    fn spell(&self, alloc: Global) -> Result<Bytes, AllocError> {
        has_edge_widths(self);
        spell_edge(alloc, self)
    }
}

impl Grammar for List {
    ghost tab = { TABLE_OF_LISTS };

    ghost row_as = { OfList };

    ghost read_as = { list_of };

    ghost spelled_as = { list_bytes };

    ghost is_allowed = { is_list };

    fn parse(alloc: Global, bytes: &[u8]) -> Result<List, Misread> {
        parse_list(alloc, bytes)
    }

    ghost reads_row = { list_row };
}

impl Spelled for List {
    fn spell(&self, alloc: Global) -> Result<Bytes, AllocError> {
        has_list_widths(self);
        spell_list(alloc, self)
    }
}

impl Grammar for SliceRow {
    ghost tab = { TABLE_OF_SLICES };

    ghost row_as = { OfSlice };

    ghost read_as = { slice_of };

    ghost spelled_as = { slice_bytes };

    ghost is_allowed = { is_slice };

    fn parse(_alloc: Global, bytes: &[u8]) -> Result<SliceRow, Misread> {
        parse_slice(bytes)
    }

    ghost reads_row = { slice_row };
}

impl Spelled for SliceRow {
    fn spell(&self, alloc: Global) -> Result<Bytes, AllocError> {
        has_slice_widths(self);
        spell_slice(alloc, self)
    }
}

impl Grammar for Session {
    ghost tab = { TABLE_OF_SESSIONS };

    ghost row_as = { OfSession };

    ghost read_as = { session_of_bytes };

    ghost spelled_as = { session_bytes };

    ghost is_allowed = { is_session };

    fn parse(_alloc: Global, bytes: &[u8]) -> Result<Session, Misread> {
        parse_session(bytes)
    }

    ghost reads_row = { session_row };
}

impl Spelled for Session {
    fn spell(&self, alloc: Global) -> Result<Bytes, AllocError> {
        has_session_widths(self);
        spell_session(alloc, self)
    }
}

impl Grammar for () {
    ghost tab = { TABLE_OF_SUSTAINED };

    ghost row_as = { λ _. OfSustained };

    ghost read_as = { sustained_of };

    ghost spelled_as = { λ _. [] };

    ghost is_allowed = { λ _. true };

    fn parse(_alloc: Global, bytes: &[u8]) -> Result<(), Misread> {
        parse_sustained(bytes)
    }

    ghost reads_row = { sustained_row };
}

impl Spelled for () {
    fn spell(&self, alloc: Global) -> Result<Bytes, AllocError> {
        Ok(Bytes::new(alloc))
    }
}

impl Grammar for Dropped {
    ghost tab = { TABLE_OF_DROPPED };

    ghost row_as = { OfDropped };

    ghost read_as = { dropped_of };

    ghost spelled_as = { dropped_bytes };

    ghost is_allowed = { λ _. true };

    fn parse(_alloc: Global, bytes: &[u8]) -> Result<Dropped, Misread> {
        parse_dropped(bytes)
    }

    ghost reads_row = { dropped_row };
}

impl Spelled for Dropped {
    fn spell(&self, alloc: Global) -> Result<Bytes, AllocError> {
        has_dropped_widths(self);
        spell_dropped(alloc, self)
    }
}

impl Grammar for Dead {
    ghost tab = { TABLE_OF_DEAD };

    ghost row_as = { OfDead };

    ghost read_as = { dead_of };

    ghost spelled_as = { dead_bytes };

    ghost is_allowed = { λ _. true };

    fn parse(_alloc: Global, bytes: &[u8]) -> Result<Dead, Misread> {
        parse_dead(bytes)
    }

    ghost reads_row = { dead_row };
}

impl Spelled for Dead {
    fn spell(&self, alloc: Global) -> Result<Bytes, AllocError> {
        has_dead_widths(self);
        spell_dead(alloc, self)
    }
}
