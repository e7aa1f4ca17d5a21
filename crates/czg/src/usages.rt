// The table of the requests.
use crate::lines::cut;
use crate::requests::{Entry, KeyLength, Request, TextEntry};
use arrayvec::ArrayVec;
use std::io::Write;

// Each request, with its usage: its name, and a word for each of its inputs.
static USAGES: [(&str, Request); 35] = [
    ("encrypt KEY BLOCK", Request::Value(Entry::Encrypt)),
    ("decrypt KEY BLOCK", Request::Value(Entry::Decrypt)),
    ("key-entry SIZE TEXT", Request::Value(Entry::KeyEntry)),
    ("clean TEXT", Request::Text(TextEntry::Clean)),
    (
        "message-text MESSAGE",
        Request::Text(TextEntry::MessageText),
    ),
    ("text-mac KEY TEXT", Request::Text(TextEntry::TextMac)),
    (
        "message-mac KEY MESSAGE",
        Request::Text(TextEntry::MessageMac),
    ),
    ("pin-make PIN", Request::Value(Entry::PinMake)),
    (
        "pin-make-with-card PIN CARD",
        Request::Value(Entry::PinMakeWithCard),
    ),
    ("pin-read BLOCK", Request::Value(Entry::PinRead)),
    (
        "pin-read-with-card BLOCK CARD",
        Request::Value(Entry::PinReadWithCard),
    ),
    ("pin-encrypt KEY PIN", Request::Value(Entry::PinEncrypt)),
    (
        "pin-encrypt-with-card KEY PIN CARD",
        Request::Value(Entry::PinEncryptWithCard),
    ),
    ("pin-decrypt KEY BLOCK", Request::Value(Entry::PinDecrypt)),
    (
        "pin-decrypt-with-card KEY BLOCK CARD",
        Request::Value(Entry::PinDecryptWithCard),
    ),
    (
        "password-make PASSWORD",
        Request::Value(Entry::PasswordMake),
    ),
    ("password-read BLOCK", Request::Value(Entry::PasswordRead)),
    ("vip-make DIGITS", Request::Value(Entry::VipMake)),
    ("vip-read BLOCK", Request::Value(Entry::VipRead)),
    (
        "derivation-data CARD SEQUENCE",
        Request::Value(Entry::DerivationData),
    ),
    (
        "card-key MASTER-KEY CARD SEQUENCE",
        Request::Value(Entry::CardKey),
    ),
    (
        "card-key-unadjusted MASTER-KEY CARD SEQUENCE",
        Request::Value(Entry::CardKeyUnadjusted),
    ),
    (
        "session-key CARD-KEY COUNTER",
        Request::Value(Entry::SessionKey),
    ),
    ("arqc SESSION-KEY DATA", Request::Value(Entry::Arqc)),
    ("arpc SESSION-KEY ARQC CODE", Request::Value(Entry::Arpc)),
    (
        "initial-key DERIVATION-KEY SERIAL-NUMBER",
        Request::Value(Entry::InitialKey),
    ),
    (
        "host-key DERIVATION-KEY SERIAL-NUMBER",
        Request::Value(Entry::HostKey),
    ),
    (
        "terminal-load INITIAL-KEY SERIAL-NUMBER",
        Request::Value(Entry::TerminalLoad),
    ),
    (
        "double-initial-key DERIVATION-KEY SERIAL-NUMBER",
        Request::Value(Entry::DoubleInitialKey),
    ),
    (
        "double-host-key DERIVATION-KEY SERIAL-NUMBER",
        Request::Value(Entry::DoubleHostKey),
    ),
    (
        "double-terminal-load INITIAL-KEY SERIAL-NUMBER",
        Request::Value(Entry::DoubleTerminalLoad),
    ),
    ("meaning NUMBER", Request::Value(Entry::Meaning)),
    (
        "terminal-next-key RECORD",
        Request::NextKey(KeyLength::Single),
    ),
    (
        "double-terminal-next-key RECORD",
        Request::NextKey(KeyLength::Double),
    ),
    ("self-test", Request::SelfTest),
];

// What help says of them.
static NOTES: &str =
    "# A request is one of these on a line, single spaces between: PIN, CARD, PASSWORD and DIGITS as such, TEXT as such to the end of the line,
# SIZE, SEQUENCE, COUNTER and NUMBER in decimal, any other in hexadecimal, - for no bytes. For any bytes, what is as such may be hex: and hexadecimal.
# NAME@ROOM lends so many bytes for the result. NAME/LABEL names a case. Answers: done and the values, refused and the number, unknown and why.
# After the value of clean, message-text, text-mac and message-mac: how many bytes of the text cleaning dropped, and how many spaces went out.
# self-test takes no input and no room. Its answer is done, or failed and the number of the check.
";

// The request with that name, and its usage.
pub(crate) fn request_named(name: &[u8]) -> Option<(Request, &'static [u8])> {
    USAGES
        .iter()
        .map(|(usage, request)| (*request, usage.as_bytes()))
        .find(|(_, usage)| cut(usage, b' ').0 == name)
}

// The text of help.
pub(crate) fn help() -> ArrayVec<u8, 4096> {
    let mut help = ArrayVec::new();
    for (usage, _) in &USAGES {
        let _ = writeln!(help, "{usage}");
    }
    let _ = write!(help, "{NOTES}");
    help
}
