//! The run of an everyday command over the program's standard output.

use exh_everyday::Status;
use exh_request::Request;
use exh_stream::Output;
use exh_text::ReasonWriter;
use std::cell::Cell;
use std::io;

/// Does what a request asks for, and says with which status the program ends.
pub(crate) fn run_request(rt: &HostRuntime, request: &Request<'_>) -> Status {
    let reason = Cell::new(None);
    let mut writer = ReasonWriter::new(io::writer(rt), &reason);
    exh_everyday::perform(rt, request, &reason, &mut Output::new(&mut writer))
}
