// What answers requests.
use crate::answers::Answers;
use crate::faults::Fault;
use crate::inputs::Inputs;
use crate::lines::{MOST_LINE, cut};
use crate::requests::{Entry, KeyLength, Request, TextEntry};
use crate::rooms::{MOST_ROOM, Rooms};
use crate::usages::request_named;
use console::{Standard, Told};
use lent::Refusal;

// The program's streams, the text of help, and the memory for a request's inputs and for the answers.
#[derive(Drop)]
pub(crate) struct Service<'a> {
    pub(crate) console: Standard<'a>,
    help: &'a [u8],
    inputs: Inputs,
    answers: Answers,
}

impl<'a> Service<'a> {
    pub(crate) fn new(console: Standard<'a>, help: &'a [u8]) -> Service<'a> {
        Service {
            console,
            help,
            inputs: Inputs::new(),
            answers: Answers::new(),
        }
    }

    // Answers a request with one value.
    fn answer_value(&mut self, entry: Entry, rooms: Rooms) -> Result<(), Refusal> {
        let mut value = [0u8; MOST_ROOM];
        let length = entry.call_with_room(&self.inputs, rooms, &mut value)?;
        self.answers.put(b"done");
        self.answers.put_value(entry.form(), &value[..length]);
        self.answers.put(b"\n");
        Ok(())
    }

    // Answers a request with one value, and with what cleaning threw away.
    fn answer_text(&mut self, entry: TextEntry, rooms: Rooms) -> Result<(), Refusal> {
        let mut value = [0u8; MOST_ROOM];
        let cleaned = entry.call_with_room(&self.inputs, rooms, &mut value)?;
        self.answers.put(b"done");
        self.answers
            .put_value(entry.form(), &value[..cleaned.length]);
        self.answers.put_thrown_away(cleaned.counts);
        Ok(())
    }

    // Answers a request for a terminal's next key.
    fn answer_next_key(&mut self, length: KeyLength, rooms: Rooms) -> Result<(), Refusal> {
        let mut key = [0u8; MOST_ROOM];
        let mut serial = [0u8; MOST_ROOM];
        length.call(&mut self.inputs, rooms, &mut key, &mut serial)?;
        self.answers
            .put_next_key(&key[..length.size()], &serial[..10], &self.inputs);
        Ok(())
    }

    // Answers a self-test: done, or the number of the check that differs.
    fn answer_self_test(&mut self) {
        match cipher::self_test() {
            Ok(()) => self.answers.put(b"done\n"),
            Err(check) => self.answers.put_failed(check),
        }
    }

    // Answers a request whose inputs were read.
    fn answer(&mut self, request: Request, rooms: Rooms) -> Result<(), Refusal> {
        match request {
            Request::Value(entry) => self.answer_value(entry, rooms),
            Request::Text(entry) => self.answer_text(entry, rooms),
            Request::NextKey(length) => self.answer_next_key(length, rooms),
            Request::SelfTest => {
                self.answer_self_test();
                Ok(())
            }
        }
    }

    // Answers a request: NAME@ROOM/LABEL, of which the last two may be left out, and its inputs.
    fn answer_request(&mut self, line: &[u8]) -> Result<(), Fault> {
        let (head, inputs) = cut(line, b' ');
        let (head, _label) = cut(head, b'/');
        let (name, room) = cut(head, b'@');
        let (request, usage) = request_named(name).ok_or(Fault::NoName)?;
        let rooms = match room {
            None => Rooms::all(),
            Some(_) if request == Request::SelfTest => return Err(Fault::NoValue),
            Some(room) => Rooms::said(room, matches!(request, Request::NextKey(_)))?,
        };
        self.inputs.read(usage, inputs)?;
        if let Err(why) = self.answer(request, rooms) {
            self.answers.put_refused(why);
        }
        Ok(())
    }

    // Answers a line: nothing for an empty one and for a comment.
    pub(crate) fn answer_line(&mut self, line: &[u8]) {
        let answered = match line {
            [] => Ok(()),
            _ if MOST_LINE < line.len() => Err(Fault::TooLong),
            [b'#', ..] => Ok(()),
            b"help" => {
                self.answers.put(self.help);
                Ok(())
            }
            _ => self.answer_request(line),
        };
        if let Err(fault) = answered {
            self.answers.put_unknown(fault);
        }
    }

    // Answers a line that is too long, of which only the first part was read.
    pub(crate) fn answer_too_long(&mut self) {
        self.answers.put_unknown(Fault::TooLong);
    }

    // Makes room for an answer, by writing those before it.
    pub(crate) fn make_room(&mut self) -> Result<(), Told> {
        self.answers.make_room(&mut self.console)
    }

    // Writes the answers.
    pub(crate) fn flush(&mut self) -> Result<(), Told> {
        self.answers.flush(&mut self.console)
    }
}
