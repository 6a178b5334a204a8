// The four calls, exported to C on numbers and byte slices (document 01, "For the package, which is written in C"). A
// slice is passed as a pointer and a length. They stand beside the library's own because C links an archive, and a Rattle
// program a library.
#![tactic(auto)]

ghost use Rattle.tautrobin.specs.Calls.{OpenCalled, SendCalled, ArriveCalled, ReleaseCalled};

// Opens a seat, and zeroes its shelf.
#[unsafe(no_mangle)]
pub extern "C" fn tautrobin_open(n: u32, own: u32, state: &mut [u8], shelf: &mut [u8]) -> u64
    ensures { OpenCalled n own state.old shelf.old result state.new shelf.new }
{
    tautrobin::tautrobin_open(n, own, state, shelf)
}

// Sends an edit: its packet goes to the start of the output.
#[unsafe(no_mangle)]
pub extern "C" fn tautrobin_send(state: &mut [u8], kind: u32, body: &[u8], out: &mut [u8]) -> u64
    ensures { SendCalled state.old kind body.now out.old result state.new out.new }
{
    tautrobin::tautrobin_send(state, kind, body, out)
}

// A packet arrives: it is handed over, put on the shelf, or refused.
#[unsafe(no_mangle)]
pub extern "C" fn tautrobin_arrive(state: &mut [u8], shelf: &mut [u8], packet: &[u8]) -> u64
    ensures { ArriveCalled state.old shelf.old packet.now result state.new shelf.new }
{
    tautrobin::tautrobin_arrive(state, shelf, packet)
}

// The ready packet on the shelf that comes first is handed over: its body goes to the output, and its slot is freed.
#[unsafe(no_mangle)]
pub extern "C" fn tautrobin_release(state: &mut [u8], shelf: &mut [u8], out: &mut [u8]) -> u64
    ensures { ReleaseCalled state.old shelf.old out.old result state.new shelf.new out.new }
{
    tautrobin::tautrobin_release(state, shelf, out)
}
