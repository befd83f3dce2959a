//! Processors that add to one word for ever.
ghost use Rattle.std.specs.Prelude.{◌≡◌, ℕ, ◌+◌, ◌-◌, ◌%◌, ◌^◌, ◌<◌, ◌≤◌, ◌⊎◌, Some, None, IfOk, MatchResult, length, get_or, replicate};
ghost use Rattle.s390x_operations.specs.State.{number_at};
ghost use Rattle.s390x_machine.specs.Regions.{is_held, byte_of};
ghost use Rattle.s390x_machine.specs.State.{memory_of};
ghost use Rattle.s390x_schedule.specs.Schedule.{processor_of};
ghost use Rattle.s390x_smp.specs.Image.{HasImage, start_cause};
ghost use Rattle.s390x_smp.specs.Simulation.{IsSimulation, AreStarted, start_processor};
ghost use Rattle.s390x_smp.specs.Stores.{has_stored};

use crate::error::SmpError;
use s390x_base::NoMemory;
use s390x_machine::{FlatMemory, Machine, Memory};
use s390x_operations::ConditionCode;
use s390x_schedule::{ScheduleEnd, run_schedule};
use std::alloc::{AllocError, Global};

/// A retry loop, `ark %r4,%r2,%r3`, `cs %r2,%r4,0(%r5)`, `jgl` to the first, `br %r14`; and a locked add, `laal %r4,%r3,0(%r5)`, `br %r14`.
const CODE: [u8; 24] = [
    0xb9, 0xf8, 0x30, 0x42, 0xba, 0x24, 0x50, 0x00, 0xc0, 0x44, 0xff, 0xff, 0xff, 0xfc, 0x07, 0xfe,
    0xeb, 0x43, 0x50, 0x00, 0x00, 0xfa, 0x07, 0xfe,
];

/// Several processors over one memory, which has the code and a word of 32 bits. Those of even number add to the word by a retry loop, those of odd
/// number by a locked add, each its addend, for ever.
#[derive(Drop)]
pub struct Smp {
    base: u64,
    word: u64,
    addends: Vec<u32>,
    machines: Vec<Machine>,
    memory: FlatMemory,
    stores: Vec<u64>,
    ghost running: { IsSimulation (record { base = base; word = word; addends = addends.items; machines = machines.items; memory = memory_of (is_held memory) (byte_of memory); stores = stores.items }) },
}

/// Why no simulator has this base and this address of its word.
fn start_cause(base: u64, word: u64) -> Option<SmpError>
    ensures { result ≡ start_cause base word }
{
    if base % 4 != 0 {
        return Some(SmpError::MisalignedBase);
    }
    if base > u64::MAX - 23 {
        return Some(SmpError::ImageTooHigh);
    }
    if word % 4 != 0 || (word >= base && word - base < 24) {
        return Some(SmpError::BadWord);
    }
    None
}

/// The code and a word that is zero.
fn started_memory(alloc: Global, base: u64, word: u64) -> Result<FlatMemory, NoMemory>
    requires { start_cause base word ≡ None }
    ensures { IfOk result
        (λ m. HasImage base word (memory_of (is_held m) (byte_of m))
        × (number_at (byte_of m) word 4 ≡ 0)) }
{
    let mut memory = FlatMemory::new(alloc);
    memory.add_region(word, &[0; 4])?;
    memory.add_region(base, &CODE)?;
    Ok(memory)
}

/// A processor at its beginning: the retry loop where its number is even, else the locked add.
fn started_machine(base: u64, word: u64, number: usize, addend: u32) -> Machine
    requires { base + 24 ≤ 2 ^ 64 }
    ensures { processor_of result ≡ start_processor base word number addend }
{
    let start = if number % 2 == 0 { base } else { base + 16 };
    let mut machine = Machine::new(start);
    machine.put(3, u64::from(addend));
    machine.put(5, word);
    machine.put(14, start);
    machine
}

/// The processors at their beginnings.
fn started_machines(
    alloc: Global,
    base: u64,
    word: u64,
    addends: &[u32],
) -> Result<Vec<Machine>, AllocError>
    requires { base + 24 ≤ 2 ^ 64 }
    ensures { IfOk result (λ machines. AreStarted base word addends.now machines.items) }
{
    let mut machines = Vec::new(alloc);
    for number in 0..addends.len() {
        machines.push(started_machine(base, word, number, addends[number]))?;
    }
    Ok(machines)
}

/// As many zeros.
fn no_stores(alloc: Global, count: usize) -> Result<Vec<u64>, AllocError>
    ensures { IfOk result (λ stores. stores.items ≡ replicate count 0) }
{
    let mut stores = Vec::new(alloc);
    for _i in 0..count {
        stores.push(0)?;
    }
    Ok(stores)
}

/// The numbers again.
fn copy_of(alloc: Global, numbers: &[u32]) -> Result<Vec<u32>, AllocError>
    ensures { IfOk result (λ copy. copy.items ≡ numbers.now) }
{
    let mut copy = Vec::new(alloc);
    copy.extend_from_slice(numbers)?;
    Ok(copy)
}

/// Whether a step at this offset of the code has completed a store, where it left this condition code.
fn has_stored(offset: u64, code: ConditionCode) -> bool
    ensures { result ≡ has_stored offset code }
{
    match code {
        ConditionCode::Code0 => offset == 4 || offset == 16,
        _ => offset == 16,
    }
}

impl Smp {
    ghost use Rattle.std.specs.Prelude.{[], ◌∷◌};
    ghost use Rattle.s390x_schedule.specs.Schedule.{NameMachines};
    ghost use Rattle.s390x_smp.specs.Simulation.{IsStart, total, word_of};
    ghost use Rattle.s390x_smp.specs.Stores.{RunsAs};
    ghost use Rattle.s390x_smp.specs.View.{simulation};

    /// The processors at their beginnings, with a word that is zero, one processor for each addend.
    ///
    /// Refused, in this order, by `MisalignedBase` exactly where the base isn't a multiple of 4, by `ImageTooHigh` exactly where the base plus the 24
    /// bytes of the code is above 2^64, and by `BadWord` exactly where the word's address isn't a multiple of 4 or one of its four bytes lies in the
    /// image; else only by `NoMemory`.
    pub fn new(alloc: Global, base: u64, word: u64, addends: &[u32]) -> Result<Smp, SmpError>
        ensures start { IfOk result (λ smp. IsStart base word addends.now (simulation smp)) }
        ensures cause { MatchResult result (λ _. start_cause base word ≡ None)
            (λ e. (start_cause base word ≡ Some e)
            ⊎ ((start_cause base word ≡ None) × (e ≡ SmpError.NoMemory))) }
    {
        if let Some(cause) = start_cause(base, word) {
            return Err(cause);
        }
        let Ok(memory) = started_memory(alloc, base, word) else {
            return Err(SmpError::NoMemory);
        };
        let Ok(machines) = started_machines(alloc, base, word, addends) else {
            return Err(SmpError::NoMemory);
        };
        let Ok(stores) = no_stores(alloc, addends.len()) else {
            return Err(SmpError::NoMemory);
        };
        let Ok(addends) = copy_of(alloc, addends) else {
            return Err(SmpError::NoMemory);
        };
        Ok(Smp {
            base,
            word,
            addends,
            machines,
            memory,
            stores,
        })
    }

    /// One step of the processor of a number.
    fn step(&mut self, number: u32)
        requires { number < length (simulation self.old).addends }
        ensures runs { RunsAs (simulation self.old) (number ∷ []) (simulation self.new) }
    {
        let at = number as usize;
        let offset = self.machines[at].place - self.base;
        match run_schedule(&mut self.machines, &mut self.memory, &[number]) {
            ScheduleEnd::Done => {}
            _ => unreachable!(),
        }
        if has_stored(offset, self.machines[at].condition_code()) {
            self.stores[at] = self.stores[at].wrapping_add(1);
        }
    }

    /// The processors that the schedule names take one step each in turn, and every step goes. The completed stores of each are counted modulo 2^64.
    ///
    /// The word is then the sum of the addends times the completed stores, modulo 2^32, and every other byte is as `new` left it. Each number of the
    /// schedule has to be below the count of addends.
    pub fn run(&mut self, schedule: &[u32])
        requires { NameMachines (length (simulation self.old).addends) schedule.now }
        ensures runs { RunsAs (simulation self.old) schedule.now (simulation self.new) }
        ensures total { word_of (simulation self.new)
            ≡ total (simulation self.new).addends (simulation self.new).stores % 2 ^ 32 }
        ensures others { HasImage (simulation self.new).base (simulation self.new).word
            (simulation self.new).memory }
    {
        for at in 0..schedule.len() {
            self.step(schedule[at]);
        }
    }

    /// The word.
    pub fn word(&self) -> u32
        ensures word { result ≡ word_of (simulation self.now) }
        ensures total { result
            ≡ total (simulation self.now).addends (simulation self.now).stores % 2 ^ 32 }
    {
        let first = u32::from(self.memory.get(self.word));
        let second = u32::from(self.memory.get(self.word + 1));
        let third = u32::from(self.memory.get(self.word + 2));
        let fourth = u32::from(self.memory.get(self.word + 3));
        ((first * 256 + second) * 256 + third) * 256 + fourth
    }

    /// The completed stores of each processor, modulo 2^64.
    pub fn stores(&self) -> &[u64]
        ensures stores { result.now ≡ (simulation self.now).stores }
        ensures count { length result.now ≡ length (simulation self.now).addends }
    {
        &self.stores
    }

    /// The machines of the processors.
    pub fn machines(&self) -> &[Machine]
        ensures machines { result.now ≡ (simulation self.now).machines }
        ensures count { length result.now ≡ length (simulation self.now).addends }
    {
        &self.machines
    }
}
