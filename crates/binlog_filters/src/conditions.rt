//! The conditions of a filter that is at work.
ghost use Rattle.std.specs.Prelude.{◌≡◌, None, Some};
ghost use Rattle.binlog_filters.specs.Taking.{has_no_condition};

use crate::filter::Filter;
use crate::tables::TableFilter;
use std::marker::Model;

/// A filter that is at work, of which it is known whether it has any condition: so an event of a log that is taken whole costs one
/// test. Contracts see the filter.
#[derive(Debug)]
pub struct Conditions {
    filter: Filter,
    are_none: bool,
}

impl Drop for Conditions {
    // By hand, so that it is proved here and not again in each crate that owns conditions.
    fn drop(self) {
        let Self {
            filter,
            are_none: _,
        } = self;
        drop(filter);
    }
}

impl Model for Conditions {
    ghost use Rattle.std.specs.Prelude.{◌≡◌};
    ghost use Rattle.binlog_filters.specs.Taking.{has_no_condition};
    ghost use Rattle.binlog_filters.specs.declared.filter.Filter.{Filter};

    ghost Value = { Filter };

    ghost view = { λ conditions. conditions.filter };

    ghost invariant = { λ conditions. conditions.are_none ≡ has_no_condition conditions.filter };
}

impl Conditions {
    /// The conditions of this filter.
    pub fn of(filter: Filter) -> Self
        ensures { result ≡ filter }
    {
        Conditions {
            are_none: filter.has_no_condition(),
            filter,
        }
    }

    /// The filter.
    #[inline(always)]
    pub fn filter(&self) -> &Filter
        ensures { result.now ≡ self.now }
    {
        &self.filter
    }

    // Whether there are none: no positions, times, server, types, GTIDs or tables are asked for.
    #[inline(always)]
    pub(crate) fn are_none(&self) -> bool
        ensures { result ≡ has_no_condition self.now }
    {
        self.are_none
    }

    /// Goes on with a filter that takes the positions from `start` on, in bytes, before `stop` if there is one.
    pub fn set_positions(&mut self, start: u64, stop: Option<u64>)
        ensures { self.new ≡ record self.old { start_position = start; stop_position = stop } }
    {
        self.filter.start_position = start;
        self.filter.stop_position = stop;
        self.are_none = self.filter.has_no_condition();
    }

    /// Goes on with a filter without conditions of tables, and returns those that there were.
    pub fn take_tables(&mut self) -> Option<TableFilter>
        ensures tables { result ≡ self.old.tables }
        ensures same { self.new ≡ record self.old { tables = None } }
    {
        let tables = self.filter.tables.take();
        self.are_none = self.filter.has_no_condition();
        tables
    }

    /// Goes on with a filter with these conditions of tables.
    pub fn set_tables(&mut self, tables: TableFilter)
        ensures { self.new ≡ record self.old { tables = Some tables } }
    {
        self.filter.tables = Some(tables);
        self.are_none = false;
    }
}
