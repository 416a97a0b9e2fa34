ghost use Rattle.std.specs.Prelude.{◌<◌, ◌≤◌, length, take, IfOk, OnOk, OnErr};
ghost use Rattle.fan_base.specs.Outside.{FaultsRose, shown};
ghost use Rattle.reply_printer.specs.Passing.{Fails, Gains, GainsFront};

use fan_base::{Failed, Sink};

/// Writes all of the bytes. Each write offers the sink the whole rest.
pub fn write_all<K: Sink>(sink: &mut K, bytes: &[u8]) -> Result<(), Failed>
    ensures all { OnOk result (Gains (shown (K.holds sink.old) (K.faults sink.old)) (shown (K.holds sink.new) (K.faults sink.new)) bytes.now) }
    ensures front { OnErr result (GainsFront (shown (K.holds sink.old) (K.faults sink.old)) (shown (K.holds sink.new) (K.faults sink.new)) bytes.now) }
    ensures fault { OnErr result (FaultsRose (K.faults sink.old) (K.faults sink.new)) }
{
    let mut rest = bytes;
    'writes: while !rest.is_empty() {
        let n = write_some(sink, rest)?;
        let (_, after) = rest.split_at(n);
        rest = after;
    }
    Ok(())
}

/// Writes one byte or more.
fn write_some<K: Sink>(sink: &mut K, bytes: &[u8]) -> Result<usize, Failed>
    requires { 0 < length bytes.now }
    ensures count { IfOk result (λ n. (0 < n) × (n ≤ length bytes.now)) }
    ensures some { IfOk result (λ n. Gains (shown (K.holds sink.old) (K.faults sink.old)) (shown (K.holds sink.new) (K.faults sink.new)) (take n bytes.now)) }
    ensures err { OnErr result (Fails (shown (K.holds sink.old) (K.faults sink.old)) (shown (K.holds sink.new) (K.faults sink.new))) }
{
    match sink.write(bytes) {
        Ok(n) => { if n == 0 { Err(Failed) } else { Ok(n) } }
        Err(failed) => Err(failed),
    }
}
