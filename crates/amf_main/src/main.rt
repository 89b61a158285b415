//! The program `amf`: writes the canonical spelling of any value of AMF 3 or AMF 0, in either, of any packet and of any shared object
//! file, checks it, lists it, writes it as JSON, tells whether two values are the same graph, lists and rewrites FLV files and RTMP chunk streams, serves
//! and makes remoting calls over HTTP, and polls a gateway.
#![tactic(auto)]

use amf_cli::{Environment, start_with_services};
use amf_io::{StandardError, StandardInput, StandardOutput, TcpDial, TcpFront};
use std::process::ExitCode;

fn main(rt: HostRuntime) -> ExitCode {
    start_with_services(
        &rt,
        rt.alloc(),
        &Environment::new(&rt),
        &mut StandardInput::new(rt.stdin()),
        &mut StandardOutput::new(rt.stdout()),
        &mut StandardError::new(rt.stderr()),
        &mut TcpFront::new(rt),
        &mut TcpDial::new(rt),
    )
}
