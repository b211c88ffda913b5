//! The key wrap of RFC 3394 (section 2.2, by indices) for keys of 32 bytes under AES-256. Nothing
//! here takes memory.
#![tactic(auto)]

ghost use Rattle.std.specs.Prelude.{◌≡◌, ◌≢◌, ℕ, ◌+◌, ◌-◌, ◌*◌, ◌<◌, ◌≤◌, ◌↔◌, ◌++◌, List, [], ◌∷◌, length, take, drop, Some, IfSome, IsNone};
ghost use Rattle.std.specs.Int.{w64, to_be_bytes};
ghost use Rattle.std.specs.List.{concat};
ghost use Rattle.std.specs.Simd.{first_chunks};
ghost use Rattle.aes_block.specs.Aes.{IsKey};
ghost use Rattle.aes_block.specs.Bytes.{AreBytes};
ghost use Rattle.key_wrap.specs.Wrap.{initial_value, register, step_number, unwrap_step, unwrap_steps, unwrapping_of, unwrapped_registers, wrap_rounds, wrap_step, wrap_steps, wrapping_of};

use aes_block::{Aes256, xor};

// The initial value of the register A (section 2.2.3.1).
const INITIAL_VALUE: [u8; 8] = [0xA6; 8];

// The block of two halves.
fn joined(high: &[u8; 8], low: &[u8; 8]) -> [u8; 16]
    ensures { result ≡ high.now ++ low.now }
{
    let mut block = [0; 16];
    block[..8].copy_from_slice(high);
    block[8..].copy_from_slice(low);
    block
}

// The two halves of a block.
fn halves(block: &[u8; 16]) -> ([u8; 8], [u8; 8])
    ensures high { result.0 ≡ take 8 block.now }
    ensures low { result.1 ≡ drop 8 block.now }
{
    let (halves, _) = block.as_chunks::<8>();
    (halves[0], halves[1])
}

// The registers of a key, A first.
fn registers_of(key: &[u8; 32]) -> [[u8; 8]; 5]
    ensures { result ≡ initial_value ∷ first_chunks 8 4 key.now }
{
    let (blocks, _) = key.as_chunks::<8>();
    [INITIAL_VALUE, blocks[0], blocks[1], blocks[2], blocks[3]]
}

// The key whose blocks these are.
fn key_of(r1: &[u8; 8], r2: &[u8; 8], r3: &[u8; 8], r4: &[u8; 8]) -> [u8; 32]
    ensures value { result ≡ concat (r1.now ∷ r2.now ∷ r3.now ∷ r4.now ∷ []) }
    ensures cut { first_chunks 8 4 result ≡ r1.now ∷ r2.now ∷ r3.now ∷ r4.now ∷ [] }
{
    let mut key = [0; 32];
    key.copy_from_slice([*r1, *r2, *r3, *r4].as_flattened());
    key
}

// The number t of step i of round j.
fn step_number(j: usize, i: usize) -> [u8; 8]
    requires round { j < 6 }
    requires step { i < 5 }
    ensures { result ≡ step_number j i }
{
    let t = (4 * j + i) as u64;
    t.to_be_bytes()
}

// Step i of round j of wrapping (section 2.2.1).
#[tactic(auto, unfolding(crate::specs::Wrap::wrap_step))]
fn wrap_step(kek: &Aes256, j: usize, i: usize, registers: &mut [[u8; 8]; 5])
    requires round { j < 6 }
    requires step { (1 ≤ i) × (i < 5) }
    ensures { registers.new ≡ wrap_step kek.now j i registers.old }
{
    let (high, low) = halves(&kek.encrypt(&joined(&registers[0], &registers[i])));
    registers[0] = xor(&high, &step_number(j, i));
    registers[i] = low;
}

// Round j of wrapping: its four steps.
fn wrap_round(kek: &Aes256, j: usize, registers: &mut [[u8; 8]; 5])
    requires { j < 6 }
    ensures { registers.new ≡ wrap_steps kek.now j 4 registers.old }
{
    for i in 1..5 {
        wrap_step(kek, j, i, registers);
    }
}

/// The key wrapped under `kek`, the key encryption key (section 2.2.1).
pub fn wrap(kek: &Aes256, key: &[u8; 32]) -> [u8; 40]
    ensures { result ≡ wrapping_of kek.now key.now }
{
    let mut registers = registers_of(key);
    for j in 0..6 {
        wrap_round(kek, j, &mut registers);
    }
    let mut bytes = [0; 40];
    bytes.copy_from_slice(registers.as_flattened());
    bytes
}

// Step i of round j of unwrapping (section 2.2.2).
#[tactic(auto, unfolding(crate::specs::Wrap::unwrap_step))]
fn unwrap_step(kek: &Aes256, j: usize, i: usize, registers: &mut [[u8; 8]; 5])
    requires round { j < 6 }
    requires step { (1 ≤ i) × (i < 5) }
    ensures value { registers.new ≡ unwrap_step kek.now j i registers.old }
    ensures undoes { wrap_step kek.now j i registers.new ≡ registers.old }
{
    let check = xor(&registers[0], &step_number(j, i));
    let (high, low) = halves(&kek.decrypt(&joined(&check, &registers[i])));
    registers[0] = high;
    registers[i] = low;
}

// Round j of unwrapping: its four steps, the last first.
fn unwrap_round(kek: &Aes256, j: usize, registers: &mut [[u8; 8]; 5])
    requires { j < 6 }
    ensures value { registers.new ≡ unwrap_steps kek.now j 4 registers.old }
    ensures undoes { wrap_steps kek.now j 4 registers.new ≡ registers.old }
{
    for i in (1..5).rev() {
        unwrap_step(kek, j, i, registers);
    }
}

// The registers that unwrapping ends with, A first.
#[tactic(auto, unfolding(crate::specs::Wrap::unwrapped_registers))]
fn unwrapped_registers(kek: &Aes256, bytes: &[u8; 40]) -> [[u8; 8]; 5]
    ensures value { result ≡ unwrapped_registers kek.now bytes.now }
    ensures undoes { wrap_rounds kek.now 6 result ≡ first_chunks 8 5 bytes.now }
{
    let (blocks, _) = bytes.as_chunks::<8>();
    let mut registers = [blocks[0], blocks[1], blocks[2], blocks[3], blocks[4]];
    for j in (0..6).rev() {
        unwrap_round(kek, j, &mut registers);
    }
    registers
}

/// The key that `bytes` wrap under `kek`, the key encryption key (section 2.2.2): `None` exactly
/// where the register A does not end as the initial value.
pub fn unwrap(kek: &Aes256, bytes: &[u8; 40]) -> Option<[u8; 32]>
    ensures exact { result ≡ unwrapping_of kek.now bytes.now }
    ensures undoes { IfSome result (λ key. wrapping_of kek.now key ≡ bytes.now) }
    ensures refused { IsNone result
        ↔ (register (unwrapped_registers kek.now bytes.now) 0 ≢ initial_value) }
{
    let registers = unwrapped_registers(kek, bytes);
    if registers[0] == INITIAL_VALUE {
        Some(key_of(&registers[1], &registers[2], &registers[3], &registers[4]))
    } else {
        None
    }
}

/// Wrapping and unwrapping undo each other, under every key encryption key.
pub fn each_undoes_the_other()
    ensures unwraps { (kek key : List ℕ) → IsKey kek → IsKey key
        → unwrapping_of kek (wrapping_of kek key) ≡ Some key }
    ensures wraps { (kek bytes key : List ℕ) → IsKey kek → AreBytes bytes
        → unwrapping_of kek bytes ≡ Some key → wrapping_of kek key ≡ bytes }
    ensures key { (kek bytes key : List ℕ) → IsKey kek → AreBytes bytes
        → unwrapping_of kek bytes ≡ Some key → IsKey key }
    ensures bytes { (kek key : List ℕ) → IsKey kek → IsKey key → AreBytes (wrapping_of kek key) }
    ensures len { (kek key : List ℕ) → IsKey kek → IsKey key → length (wrapping_of kek key) ≡ 40 }
{
    aes_block::each_undoes_the_other();
}
