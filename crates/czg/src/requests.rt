// What can be asked for.

// An entry that cleans no text.
#[derive(Clone, Copy, PartialEq, Eq)]
pub(crate) enum Entry {
    Encrypt,
    Decrypt,
    KeyEntry,
    PinMake,
    PinMakeWithCard,
    PinRead,
    PinReadWithCard,
    PinEncrypt,
    PinEncryptWithCard,
    PinDecrypt,
    PinDecryptWithCard,
    PasswordMake,
    PasswordRead,
    VipMake,
    VipRead,
    DerivationData,
    CardKey,
    CardKeyUnadjusted,
    SessionKey,
    Arqc,
    Arpc,
    InitialKey,
    HostKey,
    TerminalLoad,
    DoubleInitialKey,
    DoubleHostKey,
    DoubleTerminalLoad,
    Meaning,
}

// An entry that cleans a text.
#[derive(Clone, Copy, PartialEq, Eq)]
pub(crate) enum TextEntry {
    Clean,
    MessageText,
    TextMac,
    MessageMac,
}

// The length of a terminal's keys.
#[derive(Clone, Copy, PartialEq, Eq)]
pub(crate) enum KeyLength {
    Single,
    Double,
}

// A request.
#[derive(Clone, Copy, PartialEq, Eq)]
pub(crate) enum Request {
    // An entry with one value.
    Value(Entry),
    // An entry with one value, and two numbers: what cleaning threw away.
    Text(TextEntry),
    // An entry with two values and a record that it changes.
    NextKey(KeyLength),
    // No entry: it has no value.
    SelfTest,
}
