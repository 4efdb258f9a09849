//! A script, answered from a session that is opened for it.
ghost use Rattle.std.specs.Prelude.{◌≡◌, ◌≤◌, ◌⊎◌, None, IfOk, IfErr, OnOk};
ghost use Rattle.stab_io.specs.Refusals.{IsCallFault};
ghost use Rattle.stab_gates.specs.Limits.{most_qubits};
ghost use Rattle.stab_items.specs.Steps.{check_within};
ghost use Rattle.stab_items.specs.Views.{circuit_items};
ghost use Rattle.stab_circuit.specs.Limits.{most_stride};
ghost use Rattle.stab_script.specs.Scripts.{held_at_first, IsAnswerToAll};
ghost use Rattle.stab_script.specs.ScriptEndings.{EndsScript, EndsOn};
ghost use Rattle.stab_script.specs.ScriptTurns.{TakesTurns};

use crate::editor::{Answer, Editor};
use crate::request::Request;
use crate::session_answers::SessionAnswers;
use crate::watcher::Watcher;
use stab_circuit::Circuit;
use stab_io::{DeviceFault, Fault, Input, Output, Refusal};
use stab_run::Coins;
use stab_session::Session;
use std::alloc::Global;

/// The most bytes of a script.
const MOST_SCRIPT: usize = 67_108_864;

/// Reads a script to its end, and writes the reply to each request before it reads on. A counted one
/// is greeted first.
pub(crate) fn run_script<A: Answer, S: Input, O: Output, W: Watcher<S, O>>(
    alloc: Global,
    answers: A,
    script: &mut S,
    out: &mut O,
) -> Result<bool, Fault>
    requires opened { A.held answers ≡ held_at_first (A.environment answers) (A.held answers).items }
    ensures ends { EndsScript (IsAnswerToAll (A.environment answers) (held_at_first (A.environment answers) (A.held answers).items)) (S.seen script.old) (S.seen script.new) (O.seen out.old) (O.seen out.new) result }
    ensures turns { TakesTurns (A.environment answers) (A.held answers).items (S.seen script.old) (S.seen script.new) (O.seen out.old) (O.seen out.new) (W.log script.old) (W.log script.new) result }
{
    let mut editor = Editor::new(alloc, answers);
    editor.report_request(out, Request::Begin)?;
    let mut buf = [0u8; 4096];
    let mut taken = 0;
    'reads: loop {
        match W::read(script, out, &mut buf) {
            Err(DeviceFault) => return Err(Fault::whole(Refusal::ReadFault)),
            Ok(count) => {
                if count == 0 {
                    return editor.end(out);
                }
                let piece = buf.split_at(count).0;
                if count > MOST_SCRIPT - taken {
                    editor.take(out, piece.split_at(MOST_SCRIPT - taken).0)?;
                    return Err(Fault::whole(Refusal::TooLong));
                }
                editor.take(out, piece)?;
                taken += count;
            }
        }
    }
}

/// Opens the session that a script edits.
fn open_session<C: Coins>(
    alloc: Global,
    circuit: Circuit,
    n: usize,
    stride: usize,
    coins: C,
) -> Result<Session<C>, Fault>
    requires in_range { n ≤ most_qubits }
    requires stride_above { 1 ≤ stride }
    requires stride_within { stride ≤ most_stride }
    ensures items { IfOk result (λ s. s.items ≡ circuit_items circuit) }
    ensures qubits { IfOk result (λ s. s.qubits ≡ n) }
    ensures stride { IfOk result (λ s. s.stride ≡ stride) }
    ensures coins { IfOk result (λ s. C.sequence s.coins ≡ C.sequence coins) }
    ensures accepted { OnOk result (check_within n (circuit_items circuit) ≡ None) }
    ensures refused { IfErr result (IsCallFault (check_within n (circuit_items circuit))) }
{
    match Session::open(alloc, circuit, n, stride, coins) {
        Ok(session) => Ok(session),
        Err(refused) => Err(refused.fault),
    }
}

/// Opens a session of a circuit on n qubits, and answers a script on it, each reply before it reads on,
/// with each read made by a watcher. A counted script is greeted first.
///
/// True if a line was refused. Faults: those of the circuit on this many qubits, with the script
/// unread and the output untouched; `ReadFault` if the script's input failed and `TooLong` for a script
/// of more than 67,108,864 bytes, both after exactly the replies to what was read whole; `WriteFault`
/// if the output failed, and `OutOfMemory`, both after a prefix of all replies.
pub fn edit_circuit<C: Coins, S: Input, O: Output, W: Watcher<S, O>>(
    alloc: Global,
    counted: bool,
    circuit: Circuit,
    n: usize,
    stride: usize,
    coins: C,
    script: &mut S,
    out: &mut O,
) -> Result<bool, Fault>
    requires in_range { n ≤ most_qubits }
    requires stride_above { 1 ≤ stride }
    requires stride_within { stride ≤ most_stride }
    ensures ends { EndsOn (IsAnswerToAll (record { counted = counted; qubits = n; coins = C.sequence coins }) (held_at_first (record { counted = counted; qubits = n; coins = C.sequence coins }) (circuit_items circuit))) n (circuit_items circuit) (S.seen script.old) (S.seen script.new) (O.seen out.old) (O.seen out.new) result }
    ensures turns { ((script.new ≡ script.old) × (out.new ≡ out.old)) ⊎ TakesTurns (record { counted = counted; qubits = n; coins = C.sequence coins }) (circuit_items circuit) (S.seen script.old) (S.seen script.new) (O.seen out.old) (O.seen out.new) (W.log script.old) (W.log script.new) result }
{
    let session = open_session(alloc, circuit, n, stride, coins)?;
    let answers = SessionAnswers::new(alloc, counted, session)?;
    run_script::<SessionAnswers<C>, S, O, W>(alloc, answers, script, out)
}
