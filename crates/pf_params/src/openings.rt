//! The table texts of settings.
ghost use Rattle.std.specs.Prelude.{◌≡◌, [], IfOk, OnOk};
ghost use Rattle.std.specs.List.{fold};
ghost use Rattle.pf_catalogue.specs.Catalogue.{catalogue, row_at};
ghost use Rattle.pf_params.specs.Accepted as spec;

use crate::settings::Settings;
use pf_base::{NoMemory, Specs};
use pf_catalogue::{Kind, PARAMS, Param, add_tables, param};
use std::alloc::Global;

impl Settings {
    // Adds the table texts of a parameter.
    fn add_parameter(&self, alloc: Global, specs: &mut Specs, p: Param) -> Result<(), NoMemory>
        ensures { OnOk result (specs.new ≡ spec.with_parameter self.now specs.old (row_at p)) }
    {
        let reading = self.reading(p);
        add_tables(alloc, specs, p.kind(), reading.line, reading.value.items())
    }

    // Adds those of a parameter that is no restriction list.
    fn add_if_plain(&self, alloc: Global, specs: &mut Specs, p: Param) -> Result<(), NoMemory>
        ensures { OnOk result (specs.new ≡ spec.with_plain self.now specs.old (row_at p)) }
    {
        match p.kind() {
            Kind::Restrictions => Ok(()),
            _ => self.add_parameter(alloc, specs, p),
        }
    }

    // Adds those of the parameters that are no restriction lists.
    fn add_plain(&self, alloc: Global, specs: &mut Specs) -> Result<(), NoMemory>
        ensures { OnOk result (specs.new ≡ fold (spec.with_plain self.now) specs.old catalogue) }
    {
        for place in 0..PARAMS {
            self.add_if_plain(alloc, specs, Param::at(place))?;
        }
        Ok(())
    }

    // Adds those of the parameter of a name.
    fn add_named(&self, alloc: Global, specs: &mut Specs, name: &[u8]) -> Result<(), NoMemory>
        ensures { OnOk result (specs.new ≡ spec.with_named self.now specs.old name.now) }
    {
        match param(name) {
            None => Ok(()),
            Some(p) => self.add_parameter(alloc, specs, p),
        }
    }

    // Adds those of the restriction lists.
    fn add_lists(&self, alloc: Global, specs: &mut Specs) -> Result<(), NoMemory>
        ensures { OnOk result (specs.new ≡ fold (spec.with_named self.now) specs.old spec.restriction_lists) }
    {
        self.add_named(alloc, specs, b"smtpd_client_restrictions")?;
        self.add_named(alloc, specs, b"smtpd_helo_restrictions")?;
        self.add_named(alloc, specs, b"smtpd_sender_restrictions")?;
        self.add_named(alloc, specs, b"smtpd_relay_restrictions")?;
        self.add_named(alloc, specs, b"smtpd_recipient_restrictions")?;
        self.add_named(alloc, specs, b"smtpd_data_restrictions")?;
        self.add_named(alloc, specs, b"smtpd_end_of_data_restrictions")
    }

    // Adds those of the classes.
    fn add_classes(&self, alloc: Global, specs: &mut Specs) -> Result<(), NoMemory>
        ensures { OnOk result (specs.new ≡ fold spec.with_class specs.old (spec.classes_in self.now)) }
    {
        for class in self.classes() {
            add_tables(
                alloc,
                specs,
                Kind::Restrictions,
                class.line,
                class.items.as_slice(),
            )?;
        }
        Ok(())
    }

    /// The table texts in the order in which tables are opened, each once with the line of the setting that names it first:
    /// those of the parameters that are no restriction lists in byte order of names, then those of the restriction lists in
    /// the order in which they are judged, then those of the classes in the order of smtpd_restriction_classes
    /// (DATABASE_README; the order is postgate's own).
    pub fn specs(&self, alloc: Global) -> Result<Specs, NoMemory>
        ensures { IfOk result (λ specs. specs ≡ spec.table_texts self.now) }
    {
        let mut specs = Specs::new(alloc, self.file().copy(alloc)?);
        self.add_plain(alloc, &mut specs)?;
        self.add_lists(alloc, &mut specs)?;
        self.add_classes(alloc, &mut specs)?;
        Ok(specs)
    }
}
