//! A file that was read, with the sites of its hunks in lists.
ghost use Rattle.std.specs.Prelude.{◌≡◌, option_map, IfOk};
ghost use Rattle.hunk_files.specs.HunkFile.{value_of};
ghost use Rattle.amihunk_c.specs.Looked.{contents_of, hunk_at, list_at, load_of, sites_of, unit_at};

use crate::facts::HunkFacts;
use crate::site_lists::{load_sites, units_sites};
use crate::told::SiteTold;
use hunk_loadfile::LoadFile;
use hunk_tool::{File, HunkFile};
use std::alloc::{AllocError, Global};
use std::marker::Model;

/// A file that was read. Its sites stand in lists too, one for each hunk of each unit, so that each
/// is found by its index.
#[derive(Drop)]
pub struct Looked {
    file: HunkFile,
    sites: Vec<Vec<Vec<SiteTold>>>,
}

impl Model for Looked {
    ghost use Rattle.std.specs.Prelude.{◌≡◌};
    ghost use Rattle.hunk_files.specs.FileValue.{FileValue};
    ghost use Rattle.hunk_files.specs.HunkFile.{value_of};
    ghost use Rattle.amihunk_c.specs.Looked.{listed, sites_of};

    ghost Value = { FileValue };

    ghost view = { λ l. value_of l.file };

    ghost invariant = { λ l. listed l.sites.items ≡ sites_of (value_of l.file) };
}

impl Looked {
    /// A file that was read.
    ///
    /// # Errors
    ///
    /// [`AllocError`] only if an allocation failed.
    pub(crate) fn new(alloc: Global, file: HunkFile) -> Result<Looked, AllocError>
        ensures { IfOk result (λ looked. looked ≡ value_of file) }
    {
        let sites = match &file {
            File::Object(units) => units_sites(alloc, units)?,
            File::Load(load) => load_sites(alloc, load.hunks())?,
        };
        Ok(Looked { file, sites })
    }

    /// The number of its units, and the number of its kind.
    pub(crate) fn contents(&self) -> (usize, u32)
        ensures { result ≡ contents_of self.now }
    {
        match &self.file {
            File::Object(units) => (units.len(), 0),
            File::Load(_) => (1, 1),
        }
    }

    /// The name of a unit, and the number of its hunks.
    pub(crate) fn unit(&self, unit: usize) -> Option<(&[u8], usize)>
        ensures { option_map (λ told. (told.0.now, told.1)) result ≡ unit_at self.now unit }
    {
        match &self.file {
            File::Object(units) => {
                let unit = units.get(unit)?;
                Some((unit.name().bytes(), unit.hunks().len()))
            }
            File::Load(load) => match unit {
                0 => Some((&[], load.hunks().len())),
                _ => None,
            },
        }
    }

    /// A hunk of a unit.
    pub(crate) fn hunk(&self, unit: usize, hunk: usize) -> Option<HunkFacts<'_>>
        ensures { result ≡ hunk_at self.now unit hunk }
    {
        let sites = self.sites(unit, hunk);
        match &self.file {
            File::Object(units) => {
                let hunk = units.get(unit)?.hunks().get(hunk)?;
                Some(HunkFacts::of_unit(hunk, sites))
            }
            File::Load(load) => match unit {
                0 => Some(HunkFacts::of_load(load.hunks().get(hunk)?, sites)),
                _ => None,
            },
        }
    }

    /// The sites of a hunk of a unit; none if there is no such hunk.
    fn sites(&self, unit: usize, hunk: usize) -> &[SiteTold]
        ensures { result.now ≡ list_at (sites_of self.now) unit hunk }
    {
        match self.sites.get(unit) {
            Some(hunks) => match hunks.get(hunk) {
                Some(sites) => sites,
                None => &[],
            },
            None => &[],
        }
    }

    /// The load file, if it is one.
    pub(crate) fn load_file(&self) -> Option<&LoadFile>
        ensures { option_map (λ load. load.now) result ≡ load_of self.now }
    {
        match &self.file {
            File::Object(_) => None,
            File::Load(load) => Some(load),
        }
    }
}
