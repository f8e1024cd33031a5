//! The tables of a hub's log, version by version.

ghost use Rattle.std.specs.Prelude.{◌≡◌, IfOk, IfSome};
ghost use Rattle.cs_store.specs.log.Entry.{MayWiden};
ghost use Rattle.cs_store.specs.log.Widens.{widen_at};
ghost use Rattle.cs_hub.specs.log_store.Later.{ComesOf, widens_in};

use cs_store::log::Body;
use cs_value::{Catalog, Memory, Text};
use cs_widening::widen;
use std::alloc::Global;
use std::marker::Model;

/// A table that the log widened, by the entry at a version, and the tables behind that.
#[derive(Drop)]
pub(crate) struct Later {
    pub(crate) at: u32,
    pub(crate) table: Text,
    pub(crate) width: u32,
    pub(crate) catalog: Catalog,
}

/// The tables that a hub's log has at each version, and how many entries it has. Contracts see the tables that it opened with, their
/// count, and which tables it widened. The catalogs of all versions are kept: whoever asks for one copies nothing.
#[derive(Drop)]
pub struct Catalogs {
    pub(crate) opening: Catalog,
    pub(crate) newest: u32,
    pub(crate) later: Vec<Later>,
}

impl Model for Catalogs {
    ghost use Rattle.std.specs.Prelude.{map};
    ghost use Rattle.cs_hub.specs.log_store.Versions.{Versions};
    ghost use Rattle.cs_hub.specs.log_store.Later.{AreLater, widen_of};

    ghost Value = { Versions };

    ghost view = { λ catalogs. record { opening = catalogs.opening; newest = catalogs.newest; widens = map widen_of catalogs.later.items } };

    ghost invariant = { λ catalogs. AreLater catalogs.opening catalogs.later.items };
}

/// The table that a body widens, if it does, and the tables behind that.
pub(crate) fn later_of(
    alloc: Global,
    tables: &Catalog,
    at: u32,
    body: &Body,
) -> Result<Option<Later>, Memory>
    ensures made { IfOk result (λ later. IfSome later (ComesOf tables.now)) }
    ensures found { MayWiden tables.now body.now → IfOk result (λ later. widens_in later ≡ widen_at at body.now) }
{
    let Body::Widen { table, width } = body else {
        return Ok(None);
    };
    let Some(catalog) = widen(alloc, tables, table.as_str(), *width as usize)? else {
        return Ok(None);
    };
    Ok(Some(Later {
        at,
        table: table.copy(alloc)?,
        width: *width,
        catalog,
    }))
}

impl Catalogs {
    ghost use Rattle.std.specs.Prelude.{◌≡◌, [], IfOk};
    ghost use Rattle.cs_hub.specs.log_store.Later.{tables_behind};
    ghost use Rattle.cs_hub.specs.log_store.Versions.{judging_tables, newest_tables, tables_by};

    /// Those of a log without entries that opens with these tables.
    pub fn new(alloc: Global, opening: &Catalog) -> Result<Catalogs, Memory>
        ensures { IfOk result (λ catalogs. catalogs ≡ record { opening = opening.now; newest = 0; widens = [] }) }
    {
        Ok(Catalogs {
            opening: opening.copy(alloc)?,
            newest: 0,
            later: Vec::with_capacity(alloc, 1)?,
        })
    }

    /// The tables that the log opened with.
    pub fn opening(&self) -> &Catalog
        ensures { result.now ≡ self.now.opening }
    {
        &self.opening
    }

    /// How many entries the log has, which is the newest version.
    pub fn newest(&self) -> u32
        ensures { result ≡ self.now.newest }
    {
        self.newest
    }

    /// The tables at a version.
    pub fn at(&self, version: u64) -> &Catalog
        ensures { result.now ≡ tables_by self.now version }
    {
        let mut catalog = &self.opening;
        for later in &self.later {
            if later.at as u64 >= version {
                return catalog;
            }
            catalog = &later.catalog;
        }
        catalog
    }

    /// The tables at the newest version.
    pub fn present(&self) -> &Catalog
        ensures { result.now ≡ newest_tables self.now }
    {
        self.at(self.newest as u64)
    }

    /// The tables by which a push with this base is judged: those there, or the newest where the base is above the log.
    pub fn judging(&self, base: u64) -> &Catalog
        ensures { result.now ≡ judging_tables self.now base }
    {
        self.at(base.min(self.newest as u64))
    }

    /// The tables behind all that the log widened.
    pub(crate) fn behind(&self) -> &Catalog
        ensures { result.now ≡ tables_behind self.now.opening self.now.widens }
    {
        let mut catalog = &self.opening;
        for later in &self.later {
            catalog = &later.catalog;
        }
        catalog
    }
}
