//! A reply goes out, packet by packet.

ghost use Rattle.std.specs.Prelude.{◌≡◌, ◌<◌, ◌≤◌, length, min, IfErr, OnOk, OnErr};
ghost use Rattle.qc_serve.specs.Sent.{Adds, AreCut, NoneIsEmpty, Sends, SendsFrontOf, packet_size};
ghost use Rattle.qc_serve.specs.Executed.{MayFail};

use crate::ending::End;
use crate::pieces::put_piece;
use crate::session::Session;
use crate::sinks::{Gate, Moment, ReplySink};

/// The bytes of a packet's header.
const HEADER_LENGTH: usize = 4;

impl Session {
    ghost use Rattle.qc_serve.specs.Logs.{DropsLocal};

    /// Sends a reply that stands whole in memory. Where a put doesn't succeed, the session has to end, and the line of a command without event leaves the log.
    pub(crate) fn send_reply<K: ReplySink, G: Gate>(
        &mut self,
        reply: &[u8],
        number: u64,
        sink: &mut K,
        gate: &G,
    ) -> Result<(), End>
        ensures sends { OnOk result (Sends (K.held sink.old) (K.held sink.new) reply.now) }
        ensures same { OnOk result (self.new ≡ self.old) }
        ensures front { OnErr result (SendsFrontOf (K.held sink.old) (K.held sink.new) reply.now) }
        ensures cut { Adds (K.held sink.old) (K.held sink.new) (AreCut packet_size) }
        ensures some { OnOk result (Adds (K.held sink.old) (K.held sink.new) NoneIsEmpty) }
        ensures log { OnErr result (DropsLocal self.old.log.lines self.new.log.lines × (self.new ≡ record self.old { log = self.new.log })) }
        ensures later { K.faults sink.old ≤ K.faults sink.new }
        ensures cause { IfErr result (MayFail (K.faults sink.old) (K.faults sink.new)) }
    {
        let sent = self.send(reply, number, sink, gate);
        if sent.is_err() {
            self.log.drop_local();
        }
        sent
    }

    /// Puts the packets of a reply into a sink, one after another, and passes the gate between them.
    pub(crate) fn send<K: ReplySink, G: Gate>(
        &self,
        reply: &[u8],
        number: u64,
        sink: &mut K,
        gate: &G,
    ) -> Result<(), End>
        ensures sends { OnOk result (Sends (K.held sink.old) (K.held sink.new) reply.now) }
        ensures front { OnErr result (SendsFrontOf (K.held sink.old) (K.held sink.new) reply.now) }
        ensures cut { Adds (K.held sink.old) (K.held sink.new) (AreCut packet_size) }
        ensures some { OnOk result (Adds (K.held sink.old) (K.held sink.new) NoneIsEmpty) }
        ensures later { K.faults sink.old ≤ K.faults sink.new }
        ensures cause { IfErr result (MayFail (K.faults sink.old) (K.faults sink.new)) }
    {
        let mut rest = reply;
        while !rest.is_empty() {
            let (packet, behind) = rest.split_at(packet_length(rest));
            put_piece(&self.seat, packet, sink)?;
            rest = behind;
            if !rest.is_empty() {
                gate.pass(&self.seat, self.state.session(), Moment::Between(number));
            }
        }
        Ok(())
    }
}

/// The length of the packet in front, or all where no whole packet is.
fn packet_length(bytes: &[u8]) -> usize
    requires { 0 < length bytes.now }
    ensures { (0 < result) × (result ≡ min (length bytes.now) (packet_size bytes.now)) }
{
    if bytes.len() < HEADER_LENGTH {
        return bytes.len();
    }
    let payload = bytes[0] as usize + 256 * bytes[1] as usize + 65_536 * bytes[2] as usize;
    bytes.len().min(HEADER_LENGTH + payload)
}
