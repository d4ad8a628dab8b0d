// A session as a list of requests, each with the reply that is due.
use super::session;
use crate::ExitStatus;
use std::alloc::{AllocError, Global};
use std::process::Abort;
use std::test::Fail;

/// What comes in and what is to go out, in order. Every request is tenant t1's.
#[derive(Drop)]
pub(super) struct Talk {
    alloc: Global,
    input: Vec<u8>,
    given: String,
}

impl Talk {
    pub(super) fn new(alloc: Global) -> Talk {
        Talk {
            alloc,
            input: Vec::new(alloc),
            given: String::new(alloc),
        }
    }

    /// These bytes, and what they are told.
    pub(super) fn says(&mut self, request: &[u8], reply: &str) -> Result<(), AllocError> {
        self.input.extend_from_slice(request)?;
        self.given.push_str(reply)
    }

    /// An ingest that is kept as the tenant's push of this number.
    pub(super) fn keeps(
        &mut self,
        target: &str,
        body: &[u8],
        front: u64,
    ) -> Result<(), AllocError> {
        let request = post(self.alloc, target, body)?;
        let reply = answered(self.alloc, "text/plain", front, "")?;
        self.says(&request, reply.as_str())
    }

    /// A render, by its parameters, of these folded stacks.
    pub(super) fn renders(
        &mut self,
        parameters: &str,
        front: u64,
        text: &str,
    ) -> Result<(), AllocError> {
        let target = format!(in self.alloc; "/pyroscope/render?format=folded&{parameters}")?;
        let request = get(self.alloc, target.as_str())?;
        let reply = answered(self.alloc, "text/plain", front, text)?;
        self.says(request.as_str().as_bytes(), reply.as_str())
    }

    /// A query method, with its body and its answer.
    pub(super) fn lists(
        &mut self,
        method: &str,
        body: &str,
        front: u64,
        text: &str,
    ) -> Result<(), AllocError> {
        let target = format!(in self.alloc; "/querier.v1.QuerierService/{method}")?;
        let request = post(self.alloc, target.as_str(), body.as_bytes())?;
        let reply = answered(self.alloc, "application/json", front, text)?;
        self.says(&request, reply.as_str())
    }

    /// A request that is refused, with its status and body.
    pub(super) fn refuses(
        &mut self,
        request: &[u8],
        status: &str,
        body: &str,
    ) -> Result<(), AllocError> {
        let reply = refused(self.alloc, status, body)?;
        self.says(request, reply.as_str())
    }

    /// A request whose reading finds a fault, with its status, code and place.
    pub(super) fn faults(
        &mut self,
        request: &[u8],
        status: &str,
        code: &str,
        place: &str,
    ) -> Result<(), AllocError> {
        let body = format!(in self.alloc; "{{\"fault\":\"{code}\",\"place\":[{place}]}}")?;
        self.refuses(request, status, body.as_str())
    }

    /// The session gives just these replies, and keeps so many pushes.
    pub(super) fn holds(&self, rt: &impl Abort, kept: usize) -> Result<(), Fail> {
        let ran = session(self.alloc, &self.input)?;
        assert_eq!(rt; ran.stdio.given(), self.given.as_str().as_bytes());
        assert_eq!(rt; ran.status, ExitStatus::Done);
        assert_eq!(rt; ran.history.len(), kept);
        Ok(())
    }
}

pub(super) fn get(alloc: Global, target: &str) -> Result<String, AllocError> {
    format!(in alloc; "GET {target} HTTP/1.1\r\nX-Scope-OrgID: t1\r\n\r\n")
}

pub(super) fn post(alloc: Global, target: &str, body: &[u8]) -> Result<Vec<u8>, AllocError> {
    let length = body.len();
    let head = format!(in alloc;
        "POST {target} HTTP/1.1\r\nX-Scope-OrgID: t1\r\nContent-Length: {length}\r\n\r\n"
    )?;
    let mut request = Vec::from_slice(alloc, head.as_str().as_bytes())?;
    request.extend_from_slice(body)?;
    Ok(request)
}

/// A post that asks for so many pushes of its tenant.
pub(super) fn post_asking(
    alloc: Global,
    target: &str,
    body: &[u8],
    asked: u64,
) -> Result<Vec<u8>, AllocError> {
    let length = body.len();
    let head = format!(in alloc;
        "POST {target} HTTP/1.1\r\nX-Scope-OrgID: t1\r\nX-Pyro-Front: {asked}\r\nContent-Length: {length}\r\n\r\n"
    )?;
    let mut request = Vec::from_slice(alloc, head.as_str().as_bytes())?;
    request.extend_from_slice(body)?;
    Ok(request)
}

/// An answer that counts so many pushes.
pub(super) fn answered(
    alloc: Global,
    kind: &str,
    front: u64,
    body: &str,
) -> Result<String, AllocError> {
    let length = body.len();
    format!(in alloc;
        "HTTP/1.1 200 OK\r\nContent-Type: {kind}\r\nContent-Length: {length}\r\nX-Pyro-Front: {front}\r\nX-Pyro-Now: 1700000000000\r\n\r\n{body}"
    )
}

fn refused(alloc: Global, status: &str, body: &str) -> Result<String, AllocError> {
    let length = body.len();
    format!(in alloc;
        "HTTP/1.1 {status}\r\nContent-Type: application/json\r\nContent-Length: {length}\r\nX-Pyro-Now: 1700000000000\r\n\r\n{body}"
    )
}
