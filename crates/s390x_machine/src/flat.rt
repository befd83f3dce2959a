//! A memory of regions.

ghost use Rattle.std.specs.Prelude.{◌≡◌, ℕ, ◌+◌, ◌-◌, ◌<◌, ◌≤◌, ◌^◌, ◌||◌, ◌∷◌, ◌==◌, Some, IsSome, IsTrue, if◌then◌else◌, true, false, length, get_or, slice_index, IfOk, IfErr, OnOk, MatchResult, MatchOption};
ghost use Rattle.std.specs.BTreeMap.{get};
ghost use Rattle.std.specs.Ordering.{nat_cmp};
ghost use Rattle.s390x_machine.specs.Regions.{contains, held_in, covers, has_address, is_held, byte_of, write_bytes, ContainsAll, ContainsNone, Holds, HoldsAll, IsFolded, IsHolder, IsInFirst};
ghost use Rattle.s390x_machine.specs.State.{AreBytes};
ghost use Rattle.s390x_operations.specs.State.{bytes_to, number_at, reaches, update, wrapping_add64, write_get};

use crate::memory::Memory;
use s390x_base::NoMemory;
use std::alloc::Global;
use std::collections::BTreeMap;

/// So many regions are kept whole. An address is looked for in each of them.
const MOST_REGIONS: usize = 8;

/// Bytes from an address on.
#[derive(Drop)]
pub struct Region {
    start: u64,
    bytes: Vec<u8>,
}

impl Region {
    /// Whether the address is one of the region's.
    fn contains(&self, address: u64) -> bool
        ensures { result ≡ contains self.now address }
    {
        address >= self.start && address - self.start < self.bytes.len() as u64
    }

    /// Whether so many addresses from one on are the region's, and none of them is the last one that there is.
    #[tactic(auto, using(crate::proofs::Regions::contained))]
    fn contains_all(&self, address: u64, n: u64) -> bool
        ensures { result ≡ true → ContainsAll self.now address n }
    {
        let length = self.bytes.len() as u64;
        address >= self.start
            && address - self.start < length
            && n <= length - (address - self.start)
            && address <= u64::MAX - n
    }

    /// Whether so many addresses from one on end before the region, or begin behind it: then none of them is the region's.
    #[tactic(auto, using(crate::proofs::Regions::apart_below, crate::proofs::Regions::apart_above))]
    fn is_apart(&self, address: u64, n: u64) -> bool
        ensures { result ≡ true → ContainsNone self.now address n }
    {
        if address < self.start {
            n <= self.start - address
        } else {
            address - self.start >= self.bytes.len() as u64
        }
    }

    /// The bytes at six addresses from one on.
    fn bytes_from(&self, address: u64) -> [u8; 6]
        requires { ContainsAll self.now address 6 }
        ensures six { length result ≡ 6 }
        ensures bytes { (i : ℕ) → i < 6
            → slice_index result i
            ≡ slice_index self.now.bytes.items (address + i - self.now.start) }
    {
        let mut bytes = [0u8; 6];
        for i in 0..6 {
            bytes[i as usize] = self.bytes[(address + i - self.start) as usize];
        }
        bytes
    }
}

/// A memory of regions. An address in several of them belongs to the last one added.
#[derive(Drop)]
pub struct FlatMemory {
    alloc: Global,
    /// The last ones added, the very last one first.
    regions: Vec<Region>,
    /// What the regions before them left, by address.
    older: BTreeMap<u64, u8>,
}

/// The bytes again.
fn copy_of(alloc: Global, bytes: &[u8]) -> Result<Vec<u8>, NoMemory>
    ensures { IfOk result (λ copy. copy.items ≡ bytes.now) }
{
    let mut copy = Vec::new(alloc);
    match copy.extend_from_slice(bytes) {
        Ok(()) => Ok(copy),
        Err(_) => Err(NoMemory),
    }
}

/// The region comes before the others.
fn put_first(regions: &mut Vec<Region>, region: Region) -> Result<(), NoMemory>
    ensures { MatchResult result (λ _. regions.new.items ≡ region ∷ regions.old.items)
        (λ _. regions.new.items ≡ regions.old.items) }
{
    match regions.insert(0, region) {
        Ok(()) => Ok(()),
        Err(_) => Err(NoMemory),
    }
}

/// The bytes from a start on get their places by address; those past the last address have none.
fn put_bytes(older: &mut BTreeMap<u64, u8>, start: u64, bytes: &[u8]) -> Result<(), NoMemory>
    ensures outside { (address : ℕ) → has_address start bytes.now address ≡ false
        → get nat_cmp older.new address ≡ get nat_cmp older.old address }
    ensures inside { OnOk result
        ((address : ℕ) → has_address start bytes.now address ≡ true
        → get nat_cmp older.new address ≡ Some (slice_index bytes.now (address - start))) }
{
    for i in 0..bytes.len() {
        match start.checked_add(i as u64) {
            Some(address) => match older.insert(address, bytes[i]) {
                Ok(_) => {}
                Err(_) => return Err(NoMemory),
            },
            None => return Ok(()),
        }
    }
    Ok(())
}

/// Eight bytes of those from a start on, at an address, become the low bytes of a number, the most significant first.
fn put_eight(bytes: &mut [u8], start: u64, address: u64, value: u64)
    requires { (k : ℕ) → k < 8
        → has_address start bytes.old (wrapping_add64 address k) ≡ true }
    ensures { bytes.new ≡ write_bytes start (bytes_to address 8 value) bytes.old }
{
    let mut rest = value;
    for k in (0..8).rev() {
        bytes[(address.wrapping_add(k) - start) as usize] = (rest % 256) as u8;
        rest = rest / 256;
    }
}

/// The byte that an address has becomes this one.
fn replace_byte(older: &mut BTreeMap<u64, u8>, address: u64, value: u8)
    requires { IsSome (get nat_cmp older.old address) }
    ensures { (other : ℕ)
        → get nat_cmp older.new other
        ≡ (if other == address then Some value else get nat_cmp older.old other) }
{
    match older.insert(address, value) {
        Ok(_) => {}
        Err(_) => unreachable!(),
    }
}

/// Where as many regions are whole as may be, the last of them goes to the older bytes.
fn fold_last(regions: &mut Vec<Region>, older: &mut BTreeMap<u64, u8>) -> Result<(), NoMemory>
    ensures { (address : ℕ)
        → IsFolded regions.old.items older.old regions.new.items older.new address }
{
    let count = regions.len();
    if count < MOST_REGIONS {
        return Ok(());
    }
    let last = &regions[count - 1];
    put_bytes(older, last.start, &last.bytes)?;
    regions.truncate(count - 1);
    Ok(())
}

impl FlatMemory {
    /// A memory without an accessible address. It keeps the allocator.
    pub fn new(alloc: Global) -> FlatMemory
        ensures { (address : ℕ) → is_held result address ≡ false }
    {
        FlatMemory {
            alloc,
            regions: Vec::new(alloc),
            older: BTreeMap::new(alloc),
        }
    }

    /// Makes the addresses from a start on accessible, as many as there are bytes, and puts these there. `NoMemory` leaves the memory as it was.
    pub fn add_region(&mut self, start: u64, bytes: &[u8]) -> Result<(), NoMemory>
        requires { start + length bytes.now ≤ 2 ^ 64 }
        ensures added { IfOk result
            (λ _. (address : ℕ)
            → is_held self.new address
            ≡ (covers start bytes.now address || is_held self.old address)) }
        ensures filled { IfOk result
            (λ _. (address : ℕ)
            → byte_of self.new address
            ≡ (if covers start bytes.now address then slice_index bytes.now (address - start)
            else byte_of self.old address)) }
        ensures kept { IfErr result
            (λ _. (is_held self.new ≡ is_held self.old) × (byte_of self.new ≡ byte_of self.old)) }
    {
        let bytes = copy_of(self.alloc, bytes)?;
        fold_last(&mut self.regions, &mut self.older)?;
        put_first(&mut self.regions, Region { start, bytes })?;
        Ok(())
    }

    /// The number of the whole region to which an address belongs.
    fn holder(&self, address: u64) -> Option<usize>
        ensures { MatchOption result (held_in self.now.regions.items address ≡ false)
            (λ i. (i < length self.now.regions.items)
            × ((z : Region) → contains (get_or self.now.regions.items i z) address ≡ true)
            × ((k : ℕ) → (z : Region) → k < i
            → contains (get_or self.now.regions.items k z) address ≡ false)) }
    {
        for i in 0..self.regions.len() {
            if self.regions[i].contains(address) {
                return Some(i);
            }
        }
        None
    }

    /// The number of the whole region to which each of so many addresses from one on belongs; `None` also where that isn't found at once.
    fn holder_of_all(&self, address: u64, n: u64) -> Option<usize>
        ensures { HoldsAll result self.now.regions.items address n }
    {
        for i in 0..self.regions.len() {
            let region = &self.regions[i];
            if region.contains_all(address, n) {
                return Some(i);
            }
            if !region.is_apart(address, n) {
                return None;
            }
        }
        None
    }

    /// The byte that the first region with an address has there.
    fn region_byte(&self, i: usize, address: u64) -> u8
        requires { IsHolder self.now.regions.items address i }
        ensures held { is_held self.now address ≡ true }
        ensures value { result ≡ byte_of self.now address }
    {
        let region = &self.regions[i];
        region.bytes[(address - region.start) as usize]
    }

    /// Whether the address is accessible.
    fn has_byte(&self, address: u64) -> bool
        ensures { result ≡ is_held self.now address }
    {
        match self.holder(address) {
            Some(_) => true,
            None => self.older.contains_key(&address),
        }
    }

    /// The byte at an address; 0 where there is none.
    fn byte(&self, address: u64) -> u8
        ensures { result ≡ byte_of self.now address }
    {
        match self.holder(address) {
            Some(i) => self.region_byte(i, address),
            None => self.older.get(&address).copied().unwrap_or(0),
        }
    }

    /// The byte at an address, of its region where the number is given.
    fn byte_from(&self, region: Option<usize>, address: u64) -> u8
        requires { Holds region self.now.regions.items address }
        ensures { result ≡ byte_of self.now address }
    {
        match region {
            Some(i) => self.region_byte(i, address),
            None => self.byte(address),
        }
    }

    /// The byte at an address; `None` exactly where it isn't accessible.
    fn byte_found(&self, address: u64) -> Option<u8>
        ensures { MatchOption result (is_held self.now address ≡ false)
            (λ b. (is_held self.now address ≡ true) × (b ≡ byte_of self.now address)) }
    {
        match self.holder(address) {
            Some(i) => Some(self.region_byte(i, address)),
            None => self.older.get(&address).copied(),
        }
    }

    /// The byte at an address becomes this one, in the first region that has the address.
    fn put_in(&mut self, i: usize, address: u64, value: u8)
        requires { IsHolder self.old.regions.items address i }
        ensures same { is_held self.new ≡ is_held self.old }
        ensures written { byte_of self.new ≡ update (byte_of self.old) address value }
        ensures stays { (a : ℕ) → (k : ℕ) → IsHolder self.old.regions.items a k
            → IsHolder self.new.regions.items a k }
    {
        let region = &mut self.regions[i];
        let k = (address - region.start) as usize;
        region.bytes[k] = value;
    }

    /// The byte at an accessible address becomes this one.
    fn put_byte(&mut self, address: u64, value: u8)
        requires { IsTrue (is_held self.old address) }
        ensures same { is_held self.new ≡ is_held self.old }
        ensures written { byte_of self.new ≡ update (byte_of self.old) address value }
        ensures stays { (a : ℕ) → (k : ℕ) → IsHolder self.old.regions.items a k
            → IsHolder self.new.regions.items a k }
    {
        match self.holder(address) {
            Some(i) => self.put_in(i, address, value),
            None => replace_byte(&mut self.older, address, value),
        }
    }

    /// The byte at an accessible address becomes this one, in its region where the number is given.
    fn put_from(&mut self, region: Option<usize>, address: u64, value: u8)
        requires there { IsTrue (is_held self.old address) }
        requires holds { Holds region self.old.regions.items address }
        ensures same { is_held self.new ≡ is_held self.old }
        ensures written { byte_of self.new ≡ update (byte_of self.old) address value }
        ensures stays { (a : ℕ) → (k : ℕ) → IsHolder self.old.regions.items a k
            → IsHolder self.new.regions.items a k }
    {
        match region {
            Some(i) => self.put_in(i, address, value),
            None => self.put_byte(address, value),
        }
    }

    /// Whether so many bytes from an address on are accessible, each looked for by itself.
    #[cold]
    #[inline(never)]
    #[tactic(auto, using(crate::proofs::Reaching::reaches_none, crate::proofs::Reaching::reaches_more))]
    fn has_one_by_one(&self, address: u64, n: u64) -> bool
        ensures { result ≡ reaches (is_held self.now) address n }
    {
        let mut all = true;
        for i in 0..n {
            all = self.has_byte(address.wrapping_add(i)) && all;
        }
        all
    }

    /// Whether so many addresses from one on belong to the region that was added last.
    fn is_in_first(&self, address: u64, n: u64) -> bool
        ensures { result ≡ true → IsInFirst self.now address n }
    {
        self.regions.len() > 0 && self.regions[0].contains_all(address, n)
    }

    /// So many bytes from an address on, at most six, each looked for by itself.
    #[cold]
    #[inline(never)]
    #[tactic(auto, using(crate::proofs::Reaching::reaches_none, crate::proofs::Reaching::reaches_next))]
    fn bytes_one_by_one(&self, address: u64, n: u64) -> Option<[u8; 6]>
        requires { n ≤ 6 }
        ensures { MatchOption result (reaches (is_held self.now) address n ≡ false)
            (λ bytes. AreBytes (is_held self.now) (byte_of self.now) address n bytes) }
    {
        let mut bytes = [0u8; 6];
        for i in 0..n {
            match self.byte_found(address.wrapping_add(i)) {
                Some(byte) => bytes[i as usize] = byte,
                None => return None,
            }
        }
        Some(bytes)
    }

    /// The number in eight bytes from an address on, all of one region.
    #[tactic(auto, using(crate::proofs::Numbers::number_none, crate::proofs::Numbers::number_more))]
    fn doubleword(&self, i: usize, address: u64) -> u64
        requires { HoldsAll (Some i) self.now.regions.items address 8 }
        ensures { result ≡ number_at (byte_of self.now) address 8 }
    {
        let mut total: u64 = 0;
        for k in 0..8 {
            total = total * 256 + self.region_byte(i, address.wrapping_add(k)) as u64;
        }
        total
    }

    /// The number in sixteen bytes from an address on, all of one region.
    fn quadword(&self, i: usize, address: u64) -> u128
        requires { HoldsAll (Some i) self.now.regions.items address 16 }
        ensures { result ≡ number_at (byte_of self.now) address 16 }
    {
        let high = self.doubleword(i, address);
        let low = self.doubleword(i, address.wrapping_add(8));
        high as u128 * 18446744073709551616 + low as u128
    }

    /// The number in so many bytes from an address on, each of its region where the number is given.
    #[tactic(auto, using(crate::proofs::Numbers::number_none, crate::proofs::Numbers::number_more))]
    fn number_from(&self, region: Option<usize>, address: u64, n: u64) -> u128
        requires few { n ≤ 16 }
        requires holds { HoldsAll region self.now.regions.items address n }
        ensures value { result ≡ number_at (byte_of self.now) address n }
        ensures below { result < 256 ^ n }
    {
        let mut total: u128 = 0;
        for i in 0..n {
            total = total * 256 + u128::from(self.byte_from(region, address.wrapping_add(i)));
        }
        total
    }

    /// The number in so many bytes from an address on, each looked for by itself.
    #[cold]
    #[inline(never)]
    fn number_one_by_one(&self, address: u64, n: u64) -> u128
        requires { n ≤ 16 }
        ensures value { result ≡ number_at (byte_of self.now) address n }
        ensures below { result < 256 ^ n }
    {
        self.number_from(None, address, n)
    }

    /// The number in so many bytes from an address on, all of one region. Those of whole registers are read at once.
    fn region_number(&self, i: usize, address: u64, n: u64) -> u128
        requires few { n ≤ 16 }
        requires holds { HoldsAll (Some i) self.now.regions.items address n }
        ensures value { result ≡ number_at (byte_of self.now) address n }
        ensures below { result < 256 ^ n }
    {
        if n == 8 {
            return self.doubleword(i, address) as u128;
        }
        if n == 16 {
            return self.quadword(i, address);
        }
        self.number_from(Some(i), address, n)
    }

    /// Eight bytes from an address on, all of one region, become the low bytes of a number.
    fn put_doubleword(&mut self, i: usize, address: u64, value: u128)
        requires { HoldsAll (Some i) self.old.regions.items address 8 }
        ensures same { is_held self.new ≡ is_held self.old }
        ensures written { byte_of self.new
            ≡ write_get (bytes_to address 8 value) (byte_of self.old) }
        ensures stays { (a : ℕ) → (k : ℕ) → IsHolder self.old.regions.items a k
            → IsHolder self.new.regions.items a k }
    {
        let region = &mut self.regions[i];
        let start = region.start;
        let low = (value % 18446744073709551616) as u64;
        put_eight(&mut region.bytes, start, address, low);
    }

    /// Sixteen bytes from an address on, all of one region, become those of a number.
    fn put_quadword(&mut self, i: usize, address: u64, value: u128)
        requires { HoldsAll (Some i) self.old.regions.items address 16 }
        ensures same { is_held self.new ≡ is_held self.old }
        ensures written { byte_of self.new
            ≡ write_get (bytes_to address 16 value) (byte_of self.old) }
    {
        self.put_doubleword(i, address.wrapping_add(8), value);
        self.put_doubleword(i, address, value / 18446744073709551616);
    }

    /// So many accessible bytes from an address on become the low bytes of a number, each in its region where the number is given.
    fn put_number_from(&mut self, region: Option<usize>, address: u64, n: u64, value: u128)
        requires there { IsTrue (reaches (is_held self.old) address n) }
        requires holds { HoldsAll region self.old.regions.items address n }
        ensures same { is_held self.new ≡ is_held self.old }
        ensures written { byte_of self.new
            ≡ write_get (bytes_to address n value) (byte_of self.old) }
    {
        let mut rest = value;
        for i in (0..n).rev() {
            self.put_from(region, address.wrapping_add(i), (rest % 256) as u8);
            rest = rest / 256;
        }
    }

    /// So many accessible bytes from an address on become the low bytes of a number, each looked for by itself.
    #[cold]
    #[inline(never)]
    fn put_one_by_one(&mut self, address: u64, n: u64, value: u128)
        requires { IsTrue (reaches (is_held self.old) address n) }
        ensures same { is_held self.new ≡ is_held self.old }
        ensures written { byte_of self.new
            ≡ write_get (bytes_to address n value) (byte_of self.old) }
    {
        self.put_number_from(None, address, n, value);
    }

    /// So many bytes from an address on, all of one region, become the low bytes of a number. Those of whole registers are written at once.
    fn put_region_number(&mut self, i: usize, address: u64, n: u64, value: u128)
        requires there { IsTrue (reaches (is_held self.old) address n) }
        requires holds { HoldsAll (Some i) self.old.regions.items address n }
        ensures same { is_held self.new ≡ is_held self.old }
        ensures written { byte_of self.new
            ≡ write_get (bytes_to address n value) (byte_of self.old) }
    {
        if n == 8 {
            return self.put_doubleword(i, address, value);
        }
        if n == 16 {
            return self.put_quadword(i, address, value);
        }
        self.put_number_from(Some(i), address, n, value);
    }
}

impl Memory for FlatMemory {
    ghost held = { is_held };

    ghost byte = { byte_of };

    fn has(&self, address: u64) -> bool {
        self.has_byte(address)
    }

    fn get(&self, address: u64) -> u8 {
        self.byte(address)
    }

    fn byte_at(&self, address: u64) -> Option<u8> {
        self.byte_found(address)
    }

    fn leading_bytes(&self, address: u64, n: u64) -> Option<[u8; 6]> {
        if !self.is_in_first(address, 6) {
            return self.bytes_one_by_one(address, n);
        }
        let region = &self.regions[0];
        Some(region.bytes_from(address))
    }

    fn has_all(&self, address: u64, n: u64) -> bool {
        match self.holder_of_all(address, n) {
            Some(_) => true,
            None => self.has_one_by_one(address, n),
        }
    }

    fn number(&self, address: u64, n: u64) -> u128 {
        match self.holder_of_all(address, n) {
            Some(i) => self.region_number(i, address, n),
            None => self.number_one_by_one(address, n),
        }
    }

    #[tactic(auto, using(crate::proofs::Numbers::room))]
    fn reached_number(&self, address: u64, n: u64) -> Option<u64> {
        match self.holder_of_all(address, n) {
            Some(i) => Some(self.region_number(i, address, n) as u64),
            None => {
                if !self.has_one_by_one(address, n) {
                    return None;
                }
                Some(self.number_one_by_one(address, n) as u64)
            }
        }
    }

    fn set(&mut self, address: u64, value: u8) {
        self.put_byte(address, value);
    }

    fn put_number(&mut self, address: u64, n: u64, value: u128) {
        match self.holder_of_all(address, n) {
            Some(i) => self.put_region_number(i, address, n, value),
            None => self.put_one_by_one(address, n, value),
        }
    }

    fn put_reached(&mut self, address: u64, n: u64, value: u128) -> bool {
        match self.holder_of_all(address, n) {
            Some(i) => {
                self.put_region_number(i, address, n, value);
                true
            }
            None => {
                if !self.has_one_by_one(address, n) {
                    return false;
                }
                self.put_one_by_one(address, n, value);
                true
            }
        }
    }
}
