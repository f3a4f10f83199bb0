//! How many keys carry each number of one kind, frames or swap slots.
ghost use Rattle.std.specs.Prelude.{◌≡◌, ℕ, ◌+◌, ◌-◌, ◌*◌, ◌^◌, ◌<◌, ◌≤◌, cond, nat_lt, nat_eq, [], ◌∷◌, length, replicate, slice_index, slice_set, IfOk, IfNone, IfSome, MatchOption, vec_len};
ghost use Rattle.plain_counts.specs.Owners.{unused_of, bit_of};

use std::alloc::{AllocError, Global};
use std::marker::Model;

/// The numbers of one kind, each with how many keys carry it. A number that nobody carries is unused.
#[derive(Drop)]
pub struct Owners {
    counts: Vec<u32>,
    // the bit of each unused number is 1, so that the least is found by words of 64
    bits: Vec<u64>,
    free: u32,
}

impl Model for Owners {
    ghost use Rattle.std.specs.Prelude.{ℕ, List};
    ghost use Rattle.plain_counts.specs.Owners.{IsTallied};

    ghost Value = { List ℕ };

    ghost view = { λ a. a.counts.items };

    ghost invariant = { λ a. IsTallied a.counts.items a.bits.items a.free };
}

/// Words in which the first bits are 1 and the others are 0.
fn first_bits(alloc: Global, numbers: u32) -> Result<Vec<u64>, AllocError>
    ensures room { IfOk result (λ w. numbers ≤ 64 * vec_len w) }
    ensures few { IfOk result (λ w. vec_len w ≤ 2 ^ 26) }
    ensures bits { IfOk result (λ w. (n : ℕ) → bit_of w.items n ≡ cond (nat_lt n numbers) 1 0) }
{
    let mut words = vec![in alloc; u64::MAX; (numbers / 64) as usize]?;
    words.push((1 << (numbers % 64)) - 1)?;
    Ok(words)
}

/// The least number whose bit is 1.
fn lowest_bit(words: &[u64]) -> Option<u32>
    requires { length words.now ≤ 2 ^ 26 }
    ensures { MatchOption result ((n : ℕ) → bit_of words.now n ≡ 0)
        (λ n. (bit_of words.now n ≡ 1) × ((m : ℕ) → m < n → bit_of words.now m ≡ 0)) }
{
    for (place, word) in words.iter().enumerate() {
        if *word != 0 {
            return Some(64 * place as u32 + word.trailing_zeros());
        }
    }
    None
}

/// Sets the bit of a number to 1.
fn set_bit(words: &mut [u64], number: u32)
    requires { number < 64 * length words.old }
    ensures { (n : ℕ) → bit_of words.new n ≡ cond (nat_eq n number) 1 (bit_of words.old n) }
{
    words[(number / 64) as usize] |= 1 << (number % 64);
}

/// Sets the bit of a number to 0.
fn clear_bit(words: &mut [u64], number: u32)
    requires { number < 64 * length words.old }
    ensures { (n : ℕ) → bit_of words.new n ≡ cond (nat_eq n number) 0 (bit_of words.old n) }
{
    words[(number / 64) as usize] &= !(1 << (number % 64));
}

impl Owners {
    /// The numbers below `numbers`, all unused.
    pub fn new(alloc: Global, numbers: u32) -> Result<Owners, AllocError>
        ensures { IfOk result (λ o. o ≡ replicate numbers 0) }
    {
        let counts = vec![in alloc; 0; numbers as usize]?;
        let bits = first_bits(alloc, numbers)?;
        Ok(Owners {
            counts,
            bits,
            free: numbers,
        })
    }

    /// How many keys carry a number.
    pub fn count(&self, number: u32) -> u32
        requires { number < length self.now }
        ensures { result ≡ slice_index self.now number }
    {
        self.counts[number as usize]
    }

    /// How many numbers are unused.
    pub fn free(&self) -> u32
        ensures { result ≡ length (unused_of self.now) }
    {
        self.free
    }

    /// Gives the least unused number to one key.
    pub fn take(&mut self) -> Option<u32>
        ensures taken { IfSome result (λ n. unused_of self.old ≡ n ∷ unused_of self.new) }
        ensures unused { IfSome result (λ n. (n < length self.old) × (slice_index self.old n ≡ 0)) }
        ensures count { IfSome result (λ n. self.new ≡ slice_set self.old n 1) }
        ensures none { IfNone result (unused_of self.old ≡ []) }
        ensures unchanged { IfNone result (self.new ≡ self.old) }
    {
        let number = lowest_bit(&self.bits)?;
        clear_bit(&mut self.bits, number);
        self.counts[number as usize] = 1;
        self.free -= 1;
        Some(number)
    }

    /// Gives a number that is carried to one key more.
    pub fn share(&mut self, number: u32)
        requires carried { 0 < slice_index self.old number }
        requires fits { slice_index self.old number + 1 < 2 ^ 32 }
        ensures { self.new ≡ slice_set self.old number (slice_index self.old number + 1) }
    {
        self.counts[number as usize] += 1;
    }

    /// Takes a number from one of the keys that carry it.
    pub fn drop_one(&mut self, number: u32)
        requires { 0 < slice_index self.old number }
        ensures { self.new ≡ slice_set self.old number (slice_index self.old number - 1) }
    {
        let left = self.counts[number as usize] - 1;
        self.counts[number as usize] = left;
        if left == 0 {
            set_bit(&mut self.bits, number);
            self.free += 1;
        }
    }
}
