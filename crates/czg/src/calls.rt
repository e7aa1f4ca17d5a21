// The calls of the entries. A number is in its range, as it was read.
ghost use Rattle.std.specs.Prelude.{◌≤◌, take};
ghost use Rattle.lent.specs.Result.{Writes};
ghost use Rattle.cleaning.specs.Counts.{WritesText};
ghost use Rattle.czg.specs.Private.{answer_for, text_answer_for, text_for};

use crate::answers::Form;
use crate::inputs::Inputs;
use crate::requests::{Entry, KeyLength, TextEntry};
use crate::rooms::{MOST_ROOM, Rooms};
use chizuregwo::{cards, ciphers, hosts, messages, passwords, pins, terminals, vip_numbers};
use cleaning::Cleaned;
use lent::Refusal;

impl Entry {
    // Calls the entry, which writes its value into `out`.
    pub(crate) fn call(self, i: &Inputs, out: &mut [u8]) -> Result<usize, Refusal>
        ensures { Writes (answer_for self i.now) out.old result out.new }
    {
        let a = i.parts[0].as_slice();
        let b = i.parts[1].as_slice();
        let c = i.parts[2].as_slice();
        let x = i.number;
        let number = (x % (1 << 32)) as u32;
        match self {
            Entry::Encrypt => ciphers::czg_encrypt(a, b, out),
            Entry::Decrypt => ciphers::czg_decrypt(a, b, out),
            Entry::KeyEntry => messages::czg_key_entry(a, x as usize, out),
            Entry::PinMake => pins::czg_pin_make(a, out),
            Entry::PinMakeWithCard => pins::czg_pin_make_with_card(a, b, out),
            Entry::PinRead => pins::czg_pin_read(a, out),
            Entry::PinReadWithCard => pins::czg_pin_read_with_card(a, b, out),
            Entry::PinEncrypt => pins::czg_pin_encrypt(a, b, out),
            Entry::PinEncryptWithCard => pins::czg_pin_encrypt_with_card(a, b, c, out),
            Entry::PinDecrypt => pins::czg_pin_decrypt(a, b, out),
            Entry::PinDecryptWithCard => pins::czg_pin_decrypt_with_card(a, b, c, out),
            Entry::PasswordMake => passwords::czg_password_make(a, out),
            Entry::PasswordRead => passwords::czg_password_read(a, out),
            Entry::VipMake => vip_numbers::czg_vip_make(a, out),
            Entry::VipRead => vip_numbers::czg_vip_read(a, out),
            Entry::DerivationData => cards::czg_derivation_data(a, number, out),
            Entry::CardKey => cards::czg_card_key(a, b, number, out),
            Entry::CardKeyUnadjusted => cards::czg_card_key_unadjusted(a, b, number, out),
            Entry::SessionKey => cards::czg_session_key(a, (x % (1 << 16)) as u16, out),
            Entry::Arqc => cards::czg_arqc(a, b, out),
            Entry::Arpc => cards::czg_arpc(a, b, c, out),
            Entry::InitialKey => hosts::czg_initial_key(a, b, out),
            Entry::HostKey => hosts::czg_host_key(a, b, out),
            Entry::TerminalLoad => terminals::czg_terminal_load(a, b, out),
            Entry::DoubleInitialKey => hosts::czg_double_initial_key(a, b, out),
            Entry::DoubleHostKey => hosts::czg_double_host_key(a, b, out),
            Entry::DoubleTerminalLoad => terminals::czg_double_terminal_load(a, b, out),
            Entry::Meaning => messages::czg_meaning(number, out),
        }
    }

    // Calls the entry with so much room for its value.
    pub(crate) fn call_with_room(
        self,
        i: &Inputs,
        rooms: Rooms,
        value: &mut [u8; MOST_ROOM],
    ) -> Result<usize, Refusal>
        ensures { Writes (answer_for self i.now) (take rooms.first value.old) result (take rooms.first value.new) }
    {
        self.call(i, &mut value[..rooms.first])
    }

    // How its value is written: a PIN, a password, a VIP number and a meaning are texts.
    pub(crate) fn form(self) -> Form {
        match self {
            Entry::PinRead
            | Entry::PinReadWithCard
            | Entry::PinDecrypt
            | Entry::PinDecryptWithCard
            | Entry::PasswordRead
            | Entry::VipRead
            | Entry::Meaning => Form::Text,
            _ => Form::Hexadecimal,
        }
    }
}

impl TextEntry {
    // Calls the entry, which writes its value into `out`.
    pub(crate) fn call(self, i: &Inputs, out: &mut [u8]) -> Result<Cleaned, Refusal>
        ensures { WritesText (text_answer_for self i.now) (text_for self i.now) out.old result out.new }
    {
        let a = i.parts[0].as_slice();
        let b = i.parts[1].as_slice();
        match self {
            TextEntry::Clean => messages::czg_clean(a, out),
            TextEntry::MessageText => messages::czg_message_text(a, out),
            TextEntry::TextMac => messages::czg_text_mac(a, b, out),
            TextEntry::MessageMac => messages::czg_message_mac(a, b, out),
        }
    }

    // Calls the entry with so much room for its value.
    pub(crate) fn call_with_room(
        self,
        i: &Inputs,
        rooms: Rooms,
        text: &mut [u8; MOST_ROOM],
    ) -> Result<Cleaned, Refusal>
        ensures { WritesText (text_answer_for self i.now) (text_for self i.now) (take rooms.first text.old) result (take rooms.first text.new) }
    {
        self.call(i, &mut text[..rooms.first])
    }

    // How its value is written.
    pub(crate) fn form(self) -> Form {
        match self {
            TextEntry::Clean | TextEntry::MessageText => Form::Text,
            TextEntry::TextMac | TextEntry::MessageMac => Form::Hexadecimal,
        }
    }
}

impl KeyLength {
    // How many bytes a key has.
    pub(crate) fn size(self) -> usize
        ensures { result ≤ 16 }
    {
        match self {
            KeyLength::Single => 8,
            KeyLength::Double => 16,
        }
    }

    // Calls for a terminal's next key, with so much room for the key and for the serial number. The first input is the terminal's record.
    pub(crate) fn call(
        self,
        i: &mut Inputs,
        rooms: Rooms,
        key: &mut [u8; MOST_ROOM],
        serial: &mut [u8; MOST_ROOM],
    ) -> Result<usize, Refusal> {
        let record = &mut i.parts[0];
        let record = &mut record.memory[..record.length];
        let key = &mut key[..rooms.first];
        let serial = &mut serial[..rooms.second];
        match self {
            KeyLength::Single => terminals::czg_terminal_next_key(record, key, serial),
            KeyLength::Double => terminals::czg_double_terminal_next_key(record, key, serial),
        }
    }
}
