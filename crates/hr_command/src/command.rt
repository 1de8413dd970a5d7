//! The program over any source and sink.
ghost use Rattle.std.specs.Prelude.{◌≡◌, ◌≢◌, ◌↔◌, ◌⊎◌, ℕ, true, Ok, Err, IsTrue, IfOk, codes, string_bytes};
ghost use Rattle.std.specs.Io.KnownBytes.{Keeps};
ghost use Rattle.hr_base.specs.Counters.{Rose};
ghost use Rattle.hr_said.specs.declared.error.InputKind.{InputKind};
ghost use Rattle.hr_reader.specs.declared.error.InputError.{InputError};
ghost use Rattle.hr_reader.specs.Reading.{scenario_of};
ghost use Rattle.hr_runnable.specs.Runnable.{IsRunnable};
ghost use Rattle.hr_command.specs.Top.{IsCommand, IsStepped, IsCutOff, IsRefusedInput, HasScenario, is_silent};

use crate::status::Status;
use hr_base::limits::MAX_SCENARIO_BYTES;
use hr_io::{Gate, Sink, Source, read_whole, write_whole};
use hr_reader::{InputError, InputKind, ReadError, Scenario, read};
use hr_runnable::laws::runnable;
use hr_step::report;
use std::alloc::Global;
use std::sync::Wait;
use std::thread::Threads;

/// Runs the command that the words name, reads from `source` and writes to `sink`. Refusals are looked for in the order
/// Usage, ReadFault, Input, WriteFault; Memory may come at any point. `gate` is told of the calls of backends that run
/// in threads.
pub fn top<R: Threads + Wait + Sync, S: Source, K: Sink, G: Gate + Sync>(
    _rt: &R,
    alloc: Global,
    words: &[String],
    source: &mut S,
    sink: &mut K,
    _gate: &G,
) -> Status
    ensures usage { (result ≡ Status.Usage) ↔ ¬ (IsCommand words.now) }
    ensures unread { result ≡ Status.Usage → Keeps (S.left source.old) (S.left source.new) }
    ensures ok { result ≡ Status.Ok → IsStepped (S.left source.old) (S.left source.new) (K.taken sink.old) (K.taken sink.new) }
    ensures input { (line : ℕ) (kind : InputKind) → result ≡ Status.Input line kind
        → IsRefusedInput (S.left source.old) (S.left source.new) record { line = line; kind = kind } }
    ensures read_fault { result ≡ Status.ReadFault → Rose (S.faults source.old) (S.faults source.new) }
    ensures write_fault { result ≡ Status.WriteFault → Rose (K.faults sink.old) (K.faults sink.new) }
    ensures read_told { result ≢ Status.ReadFault → S.faults source.new ≡ S.faults source.old }
    ensures write_told { result ≢ Status.WriteFault → K.faults sink.new ≡ K.faults sink.old }
    ensures cut_off { result ≡ Status.WriteFault → IsCutOff (S.left source.old) (S.left source.new) (K.taken sink.old) (K.taken sink.new) }
    ensures silent { is_silent result ≡ true → Keeps (K.taken sink.old) (K.taken sink.new) }
    ensures complete { IsCommand words.now → HasScenario (S.left source.old)
        → ¬ (Rose (S.faults source.old) (S.faults source.new)) → ¬ (Rose (K.faults sink.old) (K.faults sink.new))
        → (result ≡ Status.Ok) ⊎ (result ≡ Status.Memory) }
    ensures no_audit { result ≢ Status.Differs }
{
    run(alloc, words, source, sink)
}

/// Runs a command that needs no threads.
pub fn run<S: Source, K: Sink>(
    alloc: Global,
    words: &[String],
    source: &mut S,
    sink: &mut K,
) -> Status
    ensures usage { (result ≡ Status.Usage) ↔ ¬ (IsCommand words.now) }
    ensures unread { result ≡ Status.Usage → Keeps (S.left source.old) (S.left source.new) }
    ensures ok { result ≡ Status.Ok → IsStepped (S.left source.old) (S.left source.new) (K.taken sink.old) (K.taken sink.new) }
    ensures input { (line : ℕ) (kind : InputKind) → result ≡ Status.Input line kind
        → IsRefusedInput (S.left source.old) (S.left source.new) record { line = line; kind = kind } }
    ensures read_fault { result ≡ Status.ReadFault → Rose (S.faults source.old) (S.faults source.new) }
    ensures write_fault { result ≡ Status.WriteFault → Rose (K.faults sink.old) (K.faults sink.new) }
    ensures read_told { result ≢ Status.ReadFault → S.faults source.new ≡ S.faults source.old }
    ensures write_told { result ≢ Status.WriteFault → K.faults sink.new ≡ K.faults sink.old }
    ensures cut_off { result ≡ Status.WriteFault → IsCutOff (S.left source.old) (S.left source.new) (K.taken sink.old) (K.taken sink.new) }
    ensures silent { is_silent result ≡ true → Keeps (K.taken sink.old) (K.taken sink.new) }
    ensures complete { IsCommand words.now → HasScenario (S.left source.old)
        → ¬ (Rose (S.faults source.old) (S.faults source.new)) → ¬ (Rose (K.faults sink.old) (K.faults sink.new))
        → (result ≡ Status.Ok) ⊎ (result ≡ Status.Memory) }
    ensures no_audit { result ≢ Status.Differs }
{
    if is_step(words) {
        step(alloc, source, sink)
    } else {
        Status::Usage
    }
}

fn is_step(words: &[String]) -> bool
    ensures { IsTrue result ↔ IsCommand words.now }
{
    match words {
        [word] => says_step(word),
        _ => false,
    }
}

fn says_step(word: &String) -> bool
    ensures { IsTrue result ↔ (string_bytes word.now ≡ codes "step") }
{
    word.as_str() == "step"
}

// Reads a scenario, runs it, and writes its report. The report is made whole before any of it is written.
fn step<S: Source, K: Sink>(alloc: Global, source: &mut S, sink: &mut K) -> Status
    ensures known { result ≢ Status.Usage }
    ensures ok { result ≡ Status.Ok → IsStepped (S.left source.old) (S.left source.new) (K.taken sink.old) (K.taken sink.new) }
    ensures input { (line : ℕ) (kind : InputKind) → result ≡ Status.Input line kind
        → IsRefusedInput (S.left source.old) (S.left source.new) record { line = line; kind = kind } }
    ensures read_fault { result ≡ Status.ReadFault → Rose (S.faults source.old) (S.faults source.new) }
    ensures write_fault { result ≡ Status.WriteFault → Rose (K.faults sink.old) (K.faults sink.new) }
    ensures read_told { result ≢ Status.ReadFault → S.faults source.new ≡ S.faults source.old }
    ensures write_told { result ≢ Status.WriteFault → K.faults sink.new ≡ K.faults sink.old }
    ensures cut_off { result ≡ Status.WriteFault → IsCutOff (S.left source.old) (S.left source.new) (K.taken sink.old) (K.taken sink.new) }
    ensures silent { is_silent result ≡ true → Keeps (K.taken sink.old) (K.taken sink.new) }
    ensures complete { HasScenario (S.left source.old)
        → ¬ (Rose (S.faults source.old) (S.faults source.new)) → ¬ (Rose (K.faults sink.old) (K.faults sink.new))
        → (result ≡ Status.Ok) ⊎ (result ≡ Status.Memory) }
    ensures no_audit { result ≢ Status.Differs }
{
    let bytes = match read_whole(alloc, source, MAX_SCENARIO_BYTES) {
        Ok(bytes) => bytes,
        Err(hr_io::ReadError::TooLong) => return too_long(),
        Err(hr_io::ReadError::Fault) => return Status::ReadFault,
        Err(hr_io::ReadError::Memory) => return Status::Memory,
    };
    let scenario = match read_runnable(alloc, &bytes) {
        Ok(scenario) => scenario,
        Err(ReadError::Refused(error)) => return refused(error),
        Err(ReadError::NoMemory) => return Status::Memory,
    };
    match report(alloc, &scenario) {
        Ok(report) => match write_whole(sink, report.as_bytes()) {
            Ok(()) => Status::Ok,
            Err(hr_io::Failed) => Status::WriteFault,
        },
        Err(_) => Status::Memory,
    }
}

fn too_long() -> Status
    ensures { result ≡ Status.Input 0 InputKind.TooLong }
{
    Status::Input {
        line: 0,
        kind: InputKind::TooLong,
    }
}

fn refused(error: InputError) -> Status
    ensures { result ≡ Status.Input error.line error.kind }
{
    Status::Input {
        line: error.line,
        kind: error.kind,
    }
}

// The scenario that a text is. Every one can be run.
fn read_runnable(alloc: Global, text: &[u8]) -> Result<Scenario, ReadError>
    ensures scenario { IfOk result (λ scenario. scenario_of text.now ≡ Ok scenario) }
    ensures runnable { IfOk result (λ scenario. IsRunnable scenario) }
    ensures refused { (error : InputError) → result ≡ Err (ReadError.Refused error) → scenario_of text.now ≡ Err error }
{
    runnable();
    read(alloc, text)
}
