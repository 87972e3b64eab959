//! A packet whose run is printed step by step.

ghost use Rattle.std.specs.Prelude.{◌≤◌, length};
ghost use Rattle.file_port.specs.Sink.{Puts};
ghost use Rattle.packet_store.specs.declared.reader.TheConstants.{MAX_PACKET};

use file_port::{Put, Sink};
use view_trace::Tracer;

/// A packet whose run is printed step by step. All memory that the run needs is reserved.
#[derive(Drop)]
pub struct TraceJob {
    /// The code and policy that run the packet.
    pub tracer: Tracer,
    /// The number of the packet.
    pub number: u64,
    /// The bytes of the packet.
    pub packet: Vec<u8>,
    ghost short: { length packet.items ≤ MAX_PACKET },
}

impl TraceJob {
    ghost use Rattle.view_trace.specs.Tracers.{traced_text};

    /// Runs the packet, and prints each step and how the run ended; stops at the first write that
    /// fails.
    pub fn print<S: Sink>(self, out: &mut S) -> Put
        ensures { Puts (traced_text self.tracer self.number self.packet.items)
            (S.state out.old) (S.state out.new) result }
    {
        let TraceJob {
            tracer,
            number,
            packet,
        } = self;
        let mut tracer = tracer;
        tracer.print_packet(number, &packet, out)
    }
}
