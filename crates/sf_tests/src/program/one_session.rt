//! Scripts of one session that are made call by call, with the replies that they are due.
use std::alloc::Global;
use std::test::*;

// A script of one session, and the order and the replies that are due.
#[derive(Drop)]
pub struct OneSession {
    alloc: Global,
    script: Vec<u8>,
    order: Vec<u8>,
    replies: Vec<u8>,
    calls: u64,
}

impl OneSession {
    // No calls, with these option lines.
    pub fn new(alloc: Global, options: &str) -> Result<OneSession, Fail> {
        Ok(OneSession {
            alloc,
            script: format!(in alloc; "securefiles 1\n{options}sessions 1\n")?
                .as_bytes()
                .to_vec(alloc)?,
            order: b"transcript 1\norder".to_vec(alloc)?,
            replies: Vec::new(alloc),
            calls: 0,
        })
    }

    // The promise of the next call.
    pub fn promise(&mut self) -> Result<(), Fail> {
        self.order.extend_from_slice(b" 1+")?;
        Ok(())
    }

    // One more reply, and its token in the order.
    pub fn reply(&mut self, reply: &str) -> Result<(), Fail> {
        self.calls = self.calls.saturating_add(1);
        let number = self.calls;
        let line = format!(in self.alloc; "1.{number} {reply}\n")?;
        self.replies.extend_from_slice(line.as_bytes())?;
        self.order.extend_from_slice(b" 1")?;
        Ok(())
    }

    // One more call, and the reply that it is due.
    pub fn call(&mut self, call: &str, reply: &str) -> Result<(), Fail> {
        let line = format!(in self.alloc; "1: {call}\n")?;
        self.script.extend_from_slice(line.as_bytes())?;
        self.reply(reply)
    }

    // More calls, each with the reply that it is due.
    pub fn calls(&mut self, calls: &[(&str, &str)]) -> Result<(), Fail> {
        for (call, reply) in calls {
            self.call(call, reply)?;
        }
        Ok(())
    }

    // The script.
    pub fn script(&self) -> Result<Vec<u8>, Fail> {
        Ok(self.script.clone()?)
    }

    // The transcript that is due, up to the places.
    pub fn transcript(&self) -> Result<Vec<u8>, Fail> {
        let mut text = self.order.clone()?;
        text.extend_from_slice(b"\n")?;
        text.extend_from_slice(&self.replies)?;
        Ok(text)
    }
}
