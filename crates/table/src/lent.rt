// A table lent to a call: memory that is known to have passed the range check, for reading or for writing.
#![tactic(auto)]

ghost use Rattle.std.specs.Prelude.{◌≡◌, true};
ghost use Rattle.octets.specs.Octets.{Octets};
ghost use Rattle.table.specs.Table.{table_in_range};

use crate::layout::{Header, RECORD, place_of, read_header};
use crate::record::{
    AGES, Keys, TIMERS, aggregator_in, keys_in, ntt_in, older_octets, phase_in, read_record,
    timers_in, timers_octets,
};
use crate::{is_table, put, record_at};
use machine::states::{Phase, Ticks, Timers};
use port::record::Port;
use std::marker::Model;

// A table lent for reading: memory that passed the range check. A clause sees its octets.
#[derive(Drop)]
pub struct Table<'a> {
    octets: &'a [u8],
}

impl<'a> Model for Table<'a> {
    ghost use Rattle.std.specs.Prelude.{List, ℕ};
    ghost use Rattle.table.specs.Table.{IsTable};

    ghost Value = { List ℕ };

    ghost view = { λ t. t.octets.now };

    ghost invariant = { λ t. IsTable t.octets.now };
}

impl<'a> Table<'a> {
    ghost use Rattle.std.specs.Prelude.{◌<◌, ◌≤◌, IfSome, is_some};
    ghost use Rattle.port.specs.Compared.{compared};
    ghost use Rattle.table.specs.Keys.{compared_by};
    ghost use Rattle.table.specs.Layout.{header_of, most_ports};
    ghost use Rattle.table.specs.Record.{encoded, decoded};
    ghost use Rattle.table.specs.Table.{count_in, port_at};
    ghost use Rattle.port.specs.Range.{port_in_range};

    // Memory as a table, if it is one.
    pub fn of(memory: &'a [u8]) -> Option<Table<'a>>
        ensures table { IfSome result (λ t. t ≡ memory.now) }
        ensures range { is_some result ≡ table_in_range memory.now }
    {
        if !is_table(memory) {
            return None;
        }
        Some(Table { octets: memory })
    }

    // Memory that is known to be a table.
    pub fn known(memory: &'a [u8]) -> Table<'a>
        requires { table_in_range memory.now ≡ true }
        ensures { result ≡ memory.now }
    {
        Table { octets: memory }
    }

    // The port count in the header.
    pub fn count(&self) -> usize
        ensures count { result ≡ count_in self.now }
        ensures few { result ≤ most_ports }
        ensures in_range { table_in_range self.now ≡ true }
    {
        usize::from(self.octets[0])
    }

    // The header at the front.
    pub fn header(&self) -> Header
        ensures { result ≡ header_of self.now }
    {
        read_header(self.octets)
    }

    // The octets of port `i`, from 0, for a look at some of them.
    pub fn look(&self, i: usize) -> &[u8; RECORD]
        requires { i < count_in self.now }
        ensures octets { (decoded result.now ≡ port_at self.now i) × (result.now ≡ encoded (port_at self.now i)) }
        ensures in_range { (table_in_range self.now ≡ true) × (port_in_range (count_in self.now) (port_at self.now i) ≡ true) }
    {
        record_at(self.octets, i)
    }

    // The record of port `i`, from 0.
    #[tactic(auto, unfolding(crate::specs::Record::decoded))]
    pub fn load(&self, i: usize) -> Port
        requires { i < count_in self.now }
        ensures { (result ≡ port_at self.now i) × (port_in_range (count_in self.now) result ≡ true) }
    {
        read_record(self.look(i))
    }

    // The states of port `i`, from 0, without the rest of its record.
    #[tactic(auto, unfolding(crate::specs::Record::decoded))]
    pub fn phase(&self, i: usize) -> Phase
        requires { i < count_in self.now }
        ensures { result ≡ (port_at self.now i).phase }
    {
        phase_in(self.look(i))
    }

    // The aggregator that port `i`, from 0, holds.
    pub fn aggregator(&self, i: usize) -> u8
        requires { i < count_in self.now }
        ensures { (result ≡ (port_at self.now i).aggregator) × (1 ≤ result) × (result ≤ most_ports) }
    {
        aggregator_in(self.look(i))
    }

    // NTT of port `i`, from 0.
    #[tactic(auto, unfolding(crate::specs::Record::decoded))]
    pub fn ntt(&self, i: usize) -> bool
        requires { i < count_in self.now }
        ensures { result ≡ (port_at self.now i).ntt }
    {
        ntt_in(self.look(i))
    }

    // What the selection rule compares of port `i`, from 0.
    #[tactic(auto, unfolding(crate::specs::Record::decoded))]
    pub fn keys(&self, i: usize) -> Keys
        requires { i < count_in self.now }
        ensures { compared_by result ≡ compared (port_at self.now i) }
    {
        keys_in(self.look(i))
    }

    // The timers of port `i`, from 0.
    #[tactic(auto, unfolding(crate::specs::Record::decoded))]
    pub fn timers(&self, i: usize) -> Timers
        requires { i < count_in self.now }
        ensures { result ≡ (port_at self.now i).timers }
    {
        timers_in(self.look(i))
    }
}

// A table lent for writing. It stays in range, and the same memory.
#[derive(Drop)]
pub struct TableMut<'a> {
    pub octets: &'a mut [u8],
    pub ghost in_range: { table_in_range octets.now ≡ true },
    pub ghost fits: { Octets octets.now },
}

impl<'a> TableMut<'a> {
    ghost use Rattle.std.specs.Prelude.{leb};
    ghost use Rattle.machine.specs.Time.{long_timeout_time};
    ghost use Rattle.port.specs.Range.{port_in_range, timers_in_range};
    ghost use Rattle.machine.specs.Ages.{ages_ticked};
    ghost use Rattle.port.specs.Record.{with_timers, with_current, with_ages};
    ghost use Rattle.table.specs.Table.{count_in};
    ghost use Rattle.table.specs.Lent.{Has, Stepped};

    // Memory that is known to be a table.
    pub fn known(memory: &'a mut [u8]) -> TableMut<'a>
        requires { table_in_range memory.old ≡ true }
        ensures { (result.octets.ghost_name ≡ memory.entry.ghost_name) × (result.octets.now ≡ memory.old) }
    {
        TableMut { octets: memory }
    }

    // The table for reading.
    pub fn lent(&self) -> Table<'_>
        ensures { result ≡ self.now.octets.now }
    {
        Table {
            octets: &*self.octets,
        }
    }

    // The record of port `i`, from 0, becomes p, which is in range; every other one stays.
    pub fn store(&mut self, i: usize, p: Port)
        requires { Has self.old i × (port_in_range (count_in self.old.octets.now) p ≡ true) }
        ensures { Stepped self.old self.new i (λ _. p) }
    {
        put(self.octets, i, p);
    }

    // Port `i`, from 0, has these timers, within their times; all else stays.
    pub fn store_timers(&mut self, i: usize, timers: Timers)
        requires { Has self.old i × (timers_in_range timers ≡ true) }
        ensures { Stepped self.old self.new i (λ p. with_timers p timers) }
    {
        octets::put(self.octets, place_of(i) + TIMERS, &timers_octets(timers));
    }

    // The current-while timer of port `i`, from 0, is started with a time that it may have; all else stays.
    pub fn store_current(&mut self, i: usize, time: Ticks)
        requires { Has self.old i × (leb time.0 long_timeout_time ≡ true) }
        ensures { Stepped self.old self.new i (λ p. with_current p time) }
    {
        octets::put_number(self.octets, place_of(i) + TIMERS, time.0);
    }

    // The sends of port `i`, from 0, grow a tick older where they stand; all else stays.
    pub fn age(&mut self, i: usize)
        requires { Has self.old i }
        ensures { Stepped self.old self.new i (λ p. with_ages p (ages_ticked p.ages)) }
    {
        let octets = older_octets(self.lent().look(i));
        octets::put(self.octets, place_of(i) + AGES, &octets);
    }
}
