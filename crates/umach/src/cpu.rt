//! The processor of a process, and the execution of instructions.

ghost use Rattle.std.specs.Prelude.{◌≡◌, ◌+◌, ◌<◌, ◌≤◌, true, length, IfOk, IfSome, if◌then◌else◌, pos, slice_index_or};
ghost use Rattle.posix.specs.Common.{fresh_cpu, exec_one as executed, execute as execute_instr, set_register, register as register_of, move_on, put_result, load_from, store_at, address_of, jump, computed, passes as passed, fetched, StaysUnlessRun, frame_of, restore, stored, bytes_in};
ghost use Rattle.umach.specs.Bursts.{exec_until, IsWithin};

use crate::memory::{UserMem, are_equal};
use crate::program::Program;
use arena::Arena;
use posix::{Bytes, Condition, Frame, Instr, Operator, Register, Sig, SigSet, Span, Trap};
use std::alloc::AllocError;
use std::marker::Model;

/// The code address of a program's first instruction.
const FIRST_ADDRESS: i64 = 16;

/// A processor: eight registers, a pc and a memory.
#[derive(Drop)]
pub struct Cpu {
    pc: i64,
    registers: [i64; 8],
    memory: UserMem,
}

impl Model for Cpu {
    ghost use Rattle.posix.specs.Processes.{Cpu as CpuOf};

    ghost Value = { CpuOf };

    ghost view = { λ c. record { pc = c.pc; registers = c.registers; memory = c.memory } };
}

impl Cpu {
    /// Creates a processor at the start of a program: registers and memory are 0. Fails if the host
    /// has no memory for it.
    #[tactic(auto, unfolding(posix::specs::Processes::zero_registers))]
    pub fn new(arena: Arena) -> Result<Cpu, AllocError>
        ensures { IfOk result (λ c. c ≡ fresh_cpu) }
    {
        Ok(Cpu {
            pc: FIRST_ADDRESS,
            registers: [0; 8],
            memory: UserMem::zeroed(arena)?,
        })
    }

    /// Copies the processor, with a memory of its own, which reuses `spare` if there is one. Without `spare`, fails
    /// if the host has no memory for the copy.
    pub fn try_clone(&self, spare: Option<UserMem>) -> Result<Cpu, AllocError>
        ensures { IfOk result (λ c. c ≡ self.now) }
    {
        Ok(Cpu {
            pc: self.pc,
            registers: self.registers,
            memory: self.memory.try_clone(spare)?,
        })
    }

    /// Returns true if two processors are in the same state.
    pub fn is_same(&self, other: &Cpu) -> bool
        ensures { result ≡ true → self.now ≡ other.now }
    {
        self.pc == other.pc
            && are_equal(&self.registers, &other.registers)
            && self.memory.is_same(&other.memory)
    }

    /// Returns the memory of a processor that is no longer needed.
    pub fn into_memory(self) -> UserMem
        ensures { result ≡ self.memory }
    {
        self.memory
    }

    /// Starts another program with two arguments, in r1 and r2: the other registers and the memory become 0 (XSH
    /// exec). Allocates no memory.
    #[tactic(auto, unfolding(posix::specs::Processes::zero_registers))]
    pub fn reset(&mut self, first: i64, second: i64)
        ensures { self.new ≡ set_register (set_register fresh_cpu 1 first) 2 second }
    {
        self.pc = FIRST_ADDRESS;
        self.registers = [0; 8];
        self.memory.clear();
        self.set_register(Register::FIRST_ARGUMENT, first);
        self.set_register(Register::SECOND_ARGUMENT, second);
    }

    /// Returns the value of a register.
    pub fn register(&self, register: Register) -> i64
        ensures { result ≡ register_of self.now register }
    {
        self.registers[register.index()]
    }

    /// Returns the word at an address of the memory.
    pub fn word(&self, address: u8) -> i64
        ensures { result ≡ slice_index_or self.now.memory address (pos 0) }
    {
        self.memory.get(usize::from(address))
    }

    /// Writes a register; the pc, the other registers and the memory stay.
    pub fn set_register(&mut self, register: Register, value: i64)
        ensures { self.new ≡ set_register self.old register value }
    {
        self.registers[register.index()] = value;
    }

    /// Advances the pc by one; it wraps. Registers and memory stay.
    pub fn move_on(&mut self)
        ensures { self.new ≡ move_on self.old }
    {
        self.pc = self.pc.wrapping_add(1);
    }

    /// Returns the frame that a handler entered now restores when it returns, with this signal mask.
    pub fn frame(&self, mask: SigSet) -> Frame
        ensures { result ≡ frame_of self.now mask }
    {
        Frame {
            pc: self.pc,
            registers: self.registers,
            mask,
        }
    }

    /// Restores the pc and the registers from a frame; the memory stays (sigreturn(2)).
    pub fn restore(&mut self, frame: &Frame)
        ensures { self.new ≡ restore frame.now self.old }
    {
        self.pc = frame.pc;
        self.registers = frame.registers;
    }

    /// Jumps to any code address; registers and memory stay.
    pub fn go_to(&mut self, address: i64)
        ensures { self.new ≡ record self.old { pc = address } }
    {
        self.pc = address;
    }

    /// Stores bytes in the words of the memory from an address on, one per word; the rest of the memory, the pc and
    /// the registers stay (XSH read). The last word has at most address 255.
    pub fn store(&mut self, address: u16, bytes: &[u8])
        requires { address + length bytes.now ≤ 256 }
        ensures { self.new ≡ record self.old { memory = stored address bytes.now self.old.memory } }
    {
        self.memory.store(address, bytes);
    }

    /// Returns the bytes in the words of a span, each the low 8 bits of its word (XSH write). There are at most 16,
    /// and the last word has at most address 255.
    pub fn bytes(&self, span: Span) -> Bytes
        requires few { span.count ≤ 16 }
        requires within { span.address + span.count ≤ 256 }
        ensures { result ≡ bytes_in span self.now.memory }
    {
        self.memory.bytes(span)
    }

    /// Runs the instruction of a program at the pc. A system call and a machine fault leave the processor unchanged.
    #[tactic(auto, unfolding(posix::specs::Execute::exec_one))]
    #[inline(always)]
    pub fn exec_one(&mut self, program: &Program) -> Trap
        ensures trap { result ≡ (executed program.now.instructions self.old).trap }
        ensures cpu { self.new ≡ (executed program.now.instructions self.old).cpu }
        ensures stays { StaysUnlessRun result self.old self.new }
    {
        match fetch(program, self.pc) {
            None => Trap::Fault(Sig::SEGV),
            Some(instr) => self.execute(instr),
        }
    }

    /// Runs at most `most` instructions, up to the first one that isn't plain, which may be a note. Returns the
    /// number of plain ones, and the trap of that one, or `Next` if all were plain. A system call and a machine fault
    /// leave the processor unchanged.
    #[inline(never)]
    pub fn run_until(&mut self, program: &Program, most: u64) -> (u64, Trap)
        ensures count { result.0 ≡ (exec_until program.now.instructions most self.old).count }
        ensures trap { result.1 ≡ (exec_until program.now.instructions most self.old).trap }
        ensures cpu { self.new ≡ (exec_until program.now.instructions most self.old).cpu }
        ensures within { IsWithin most result.0 result.1 }
    {
        for done in 0..most {
            match self.exec_one(program) {
                Trap::Next => {}
                trap => return (done, trap),
            }
        }
        (most, Trap::Next)
    }

    /// Runs an instruction.
    #[inline(always)]
    fn execute(&mut self, instr: Instr) -> Trap
        ensures trap { result ≡ (execute_instr self.old instr).trap }
        ensures cpu { self.new ≡ (execute_instr self.old instr).cpu }
        ensures stays { StaysUnlessRun result self.old self.new }
    {
        match instr {
            Instr::Set(target, value) => self.put(target, value),
            Instr::Move(target, source) => {
                let value = self.register(source);
                self.put(target, value)
            }
            Instr::Compute(operator, target, operand) => {
                let result = compute(operator, self.register(target), self.register(operand));
                self.put_result(target, result)
            }
            Instr::Load(target, pointer) => {
                let address = address_in(self.register(pointer));
                self.load_from(target, address)
            }
            Instr::Store(source, pointer) => {
                let value = self.register(source);
                let address = address_in(self.register(pointer));
                self.store_at(value, address)
            }
            Instr::Jump(address) => self.jump(address),
            Instr::JumpIf(condition, tested, address) => self.jump_if(condition, tested, address),
            Instr::Note(register) => {
                let value = self.register(register);
                self.move_on();
                Trap::Note(value)
            }
            Instr::Sys(call) => Trap::Call(call),
        }
    }

    /// Writes a register and advances the pc.
    fn put(&mut self, register: Register, value: i64) -> Trap
        ensures trap { result ≡ Trap.Next }
        ensures cpu { self.new ≡ move_on (set_register self.old register value) }
    {
        self.set_register(register, value);
        self.move_on();
        Trap::Next
    }

    /// Writes a result to a register; without a result, it is a SIGFPE fault.
    fn put_result(&mut self, register: Register, value: Option<i64>) -> Trap
        ensures trap { result ≡ (put_result self.old register value).trap }
        ensures cpu { self.new ≡ (put_result self.old register value).cpu }
        ensures stays { StaysUnlessRun result self.old self.new }
    {
        match value {
            None => Trap::Fault(Sig::FPE),
            Some(value) => self.put(register, value),
        }
    }

    /// Loads a register from an address of the memory; without an address, it is a SIGSEGV fault.
    fn load_from(&mut self, register: Register, address: Option<usize>) -> Trap
        requires { IfSome address (λ a. a < 256) }
        ensures trap { result ≡ (load_from self.old register address).trap }
        ensures cpu { self.new ≡ (load_from self.old register address).cpu }
        ensures stays { StaysUnlessRun result self.old self.new }
    {
        match address {
            None => Trap::Fault(Sig::SEGV),
            Some(address) => {
                let value = self.memory.get(address);
                self.put(register, value)
            }
        }
    }

    /// Stores a value at an address of the memory; without an address, it is a SIGSEGV fault.
    fn store_at(&mut self, value: i64, address: Option<usize>) -> Trap
        requires { IfSome address (λ a. a < 256) }
        ensures trap { result ≡ (store_at self.old value address).trap }
        ensures cpu { self.new ≡ (store_at self.old value address).cpu }
        ensures stays { StaysUnlessRun result self.old self.new }
    {
        match address {
            None => Trap::Fault(Sig::SEGV),
            Some(address) => {
                self.memory.set(address, value);
                self.move_on();
                Trap::Next
            }
        }
    }

    /// Jumps to a code address.
    fn jump(&mut self, address: u16) -> Trap
        ensures trap { result ≡ Trap.Next }
        ensures cpu { self.new ≡ jump self.old address }
    {
        self.pc = i64::from(address);
        Trap::Next
    }

    /// Jumps to a code address if a register meets a condition, and otherwise advances the pc.
    fn jump_if(&mut self, condition: Condition, register: Register, address: u16) -> Trap
        ensures trap { result ≡ Trap.Next }
        ensures cpu { self.new ≡ (if passed condition (register_of self.old register) then jump self.old address else move_on self.old) }
    {
        if passes(condition, self.register(register)) {
            return self.jump(address);
        }
        self.move_on();
        Trap::Next
    }
}

/// Returns the result of an operator, or `None` for a division by 0.
fn compute(operator: Operator, x: i64, y: i64) -> Option<i64>
    ensures { result ≡ computed operator x y }
{
    match operator {
        Operator::Add => Some(x.wrapping_add(y)),
        Operator::Sub => Some(x.wrapping_sub(y)),
        Operator::Mul => Some(x.wrapping_mul(y)),
        Operator::Div => divide(x, y),
        Operator::Rem => remainder(x, y),
        Operator::And => Some(x & y),
        Operator::Or => Some(x | y),
        Operator::Xor => Some(x ^ y),
    }
}

/// Returns the quotient, rounded towards 0, or `None` if the divisor is 0.
fn divide(x: i64, y: i64) -> Option<i64>
    ensures { result ≡ computed Operator.Div x y }
{
    if y == 0 {
        None
    } else {
        Some(x.wrapping_div(y))
    }
}

/// Returns the remainder of that quotient, or `None` if the divisor is 0.
fn remainder(x: i64, y: i64) -> Option<i64>
    ensures { result ≡ computed Operator.Rem x y }
{
    if y == 0 {
        None
    } else {
        Some(x.wrapping_rem(y))
    }
}

/// Returns true if a value meets a condition.
fn passes(condition: Condition, value: i64) -> bool
    ensures { result ≡ passed condition value }
{
    match condition {
        Condition::Zero => value == 0,
        Condition::NotZero => value != 0,
        Condition::Negative => value < 0,
    }
}

/// Returns the address in the memory that a value names, or `None` outside 0 to 255.
fn address_in(value: i64) -> Option<usize>
    ensures named { result ≡ address_of value }
    ensures within { IfSome result (λ a. a < 256) }
{
    if value < 0 || value >= 256 {
        None
    } else {
        Some(value as usize)
    }
}

/// Returns the instruction at a code address, if any.
fn fetch(program: &Program, address: i64) -> Option<Instr>
    ensures { result ≡ fetched program.now.instructions address }
{
    if address < FIRST_ADDRESS {
        return None;
    }
    program.get((address - FIRST_ADDRESS) as usize)
}
