//! One token against the goal that it meets.

ghost use Rattle.std.specs.Prelude.{◌≡◌, false, OnOk, option_and_then};
ghost use Rattle.json.specs.Reads.{token_of};
ghost use Rattle.amf_text.specs.Scalars.{read_number};
ghost use Rattle.amf_text.specs.Meant.{bytes_meant, pattern_meant, fits_int, fits_uint, flag_meant};
ghost use Rattle.amf_text.specs.Accepted.{form_meant, file_version, packet_version};
ghost use Rattle.amf_text_read.specs.Goals.{Held, goal_of};
ghost use Rattle.amf_text_trees.specs.Pieces as piece;
ghost use Rattle.amf_text_trees.specs.Gathering.{gather, given, json_of};
ghost use Rattle.amf_text_gather.specs.Drafts.{draft_of, is_structure, text_by, whole_by};

use crate::draft::Draft;
use crate::frame::Frame;
use crate::piece::Piece;
use crate::scalars::{
    token_bytes, token_file_version, token_flag, token_form, token_int, token_packet_version,
    token_pattern, token_text, token_uint,
};
use amf_text_read::Goal;
use amf_wire::Memory;
use json::Token;

impl Draft {
    /// A text by hexadecimal digits.
    fn give_text_hex(&mut self, token: &Token<'_>) -> Result<(), Memory>
        ensures { OnOk result (draft_of self.new ≡ given piece.text (text_by token.now) (draft_of self.old)) }
    {
        match token_text(self.alloc, token)? {
            Some(text) => self.give(Piece::Text(text)),
            None => Ok(()),
        }
    }

    /// Bytes by hexadecimal digits.
    fn give_hex(&mut self, token: &Token<'_>) -> Result<(), Memory>
        ensures { OnOk result (draft_of self.new ≡ given piece.bytes (bytes_meant (json_of (token_of token.now))) (draft_of self.old)) }
    {
        match token_bytes(self.alloc, token)? {
            Some(bytes) => self.give(Piece::Bytes(bytes)),
            None => Ok(()),
        }
    }

    /// A double by a number or a word.
    fn give_pattern(&mut self, token: &Token<'_>) -> Result<(), Memory>
        ensures { OnOk result (draft_of self.new ≡ given piece.pattern (pattern_meant read_number (json_of (token_of token.now))) (draft_of self.old)) }
    {
        match token_pattern(token) {
            Some(pattern) => self.give(Piece::Pattern(pattern)),
            None => Ok(()),
        }
    }

    /// An integer of a vector.
    fn give_int(&mut self, token: &Token<'_>) -> Result<(), Memory>
        ensures { OnOk result (draft_of self.new ≡ given piece.int (option_and_then fits_int (whole_by token.now)) (draft_of self.old)) }
    {
        match token_int(token) {
            Some(int) => self.give(Piece::Int(int)),
            None => Ok(()),
        }
    }

    /// An unsigned integer of a vector.
    fn give_uint(&mut self, token: &Token<'_>) -> Result<(), Memory>
        ensures { OnOk result (draft_of self.new ≡ given piece.uint (option_and_then fits_uint (whole_by token.now)) (draft_of self.old)) }
    {
        match token_uint(token) {
            Some(uint) => self.give(Piece::Uint(uint)),
            None => Ok(()),
        }
    }

    /// A flag.
    fn give_flag(&mut self, token: &Token<'_>) -> Result<(), Memory>
        ensures { OnOk result (draft_of self.new ≡ given piece.flag (flag_meant (json_of (token_of token.now))) (draft_of self.old)) }
    {
        match token_flag(token) {
            Some(flag) => self.give(Piece::Flag(flag)),
            None => Ok(()),
        }
    }

    /// The form of a header or a message.
    fn give_form(&mut self, token: &Token<'_>) -> Result<(), Memory>
        ensures { OnOk result (draft_of self.new ≡ given piece.form (form_meant (json_of (token_of token.now))) (draft_of self.old)) }
    {
        match token_form(token) {
            Some(form) => self.give(Piece::Form(form)),
            None => Ok(()),
        }
    }

    /// The version of a file.
    fn give_file_version(&mut self, token: &Token<'_>) -> Result<(), Memory>
        ensures { OnOk result (draft_of self.new ≡ given piece.version (option_and_then file_version (whole_by token.now)) (draft_of self.old)) }
    {
        match token_file_version(token) {
            Some(version) => self.give(Piece::Version(version)),
            None => Ok(()),
        }
    }

    /// The version of a packet.
    fn give_packet_version(&mut self, token: &Token<'_>) -> Result<(), Memory>
        ensures { OnOk result (draft_of self.new ≡ given piece.packet_version (option_and_then packet_version (whole_by token.now)) (draft_of self.old)) }
    {
        match token_packet_version(token) {
            Some(version) => self.give(Piece::PacketVersion(version)),
            None => Ok(()),
        }
    }

    /// A scalar, or an item of a list of them. Other goals only go by.
    #[tactic(auto, unfolding(amf_text_trees::specs::Gathering::gather))]
    fn gather_scalar(&mut self, goal: Goal, token: &Token<'_>) -> Result<(), Memory>
        requires { is_structure goal ≡ false }
        ensures { OnOk result ((h : Held) → draft_of self.new ≡ gather read_number (goal_of h goal) (token_of token.now) (draft_of self.old)) }
    {
        match goal {
            Goal::PatternList => self.push(Frame::Patterns(Vec::new(self.alloc))),
            Goal::UintList => self.push(Frame::Uints(Vec::new(self.alloc))),
            Goal::IntList => self.push(Frame::Ints(Vec::new(self.alloc))),
            Goal::Pattern => self.give_pattern(token),
            Goal::Patterns => match token {
                Token::EndArray => self.finish(),
                token => self.give_pattern(token),
            },
            Goal::Ints => match token {
                Token::EndArray => self.finish(),
                token => self.give_int(token),
            },
            Goal::Uints => match token {
                Token::EndArray => self.finish(),
                token => self.give_uint(token),
            },
            Goal::TextHex | Goal::ShortHex => self.give_text_hex(token),
            Goal::Hex => self.give_hex(token),
            Goal::Flag | Goal::Truth => self.give_flag(token),
            Goal::FormWord => self.give_form(token),
            Goal::VersionOfFile => self.give_file_version(token),
            Goal::VersionOfPacket => self.give_packet_version(token),
            _ => Ok(()),
        }
    }

    /// What is gathered where this token meets this goal.
    #[tactic(auto, unfolding(amf_text_trees::specs::Gathering::gather))]
    pub(crate) fn gather(&mut self, goal: Goal, token: &Token<'_>) -> Result<(), Memory>
        ensures { OnOk result ((h : Held) → draft_of self.new ≡ gather read_number (goal_of h goal) (token_of token.now) (draft_of self.old)) }
    {
        match goal {
            Goal::FormName => self.by_form(token),
            Goal::Close => self.finish(),
            Goal::Rows | Goal::Sealed | Goal::Those => {
                self.push(Frame::Members(Vec::new(self.alloc), None))
            }
            Goal::RowKeys | Goal::Plain | Goal::Keys => self.by_name(token),
            Goal::Rising | Goal::RisingPast | Goal::Left => self.by_name(token),
            Goal::Headers => self.push(Frame::Headers(Vec::new(self.alloc))),
            Goal::MoreHeaders(_) => self.by_header(token),
            Goal::Messages => self.push(Frame::Messages(Vec::new(self.alloc))),
            Goal::MoreMessages(_) => self.by_message(token),
            Goal::Value | Goal::Node => self.by_value(token),
            Goal::Items => self.by_item(token),
            Goal::Object | Goal::NodeObject => self.by_first(token),
            Goal::List | Goal::EntriesList => self.push(Frame::List(Vec::new(self.alloc))),
            Goal::Entries | Goal::Pairs => self.by_end(token),
            Goal::Members => self.open_members(),
            Goal::ClassRest | Goal::Begun => self.by_class_key(token),
            Goal::ClassNames => self.push(Frame::Words(Vec::new(self.alloc))),
            Goal::MoreNames => self.by_word(token),
            Goal::FlagOrClose(_) => self.by_last_key(token),
            Goal::VectorKey => self.by_vector_key(token),
            Goal::Text | Goal::ShortText => self.by_text(token),
            Goal::Label => self.by_label(token),
            _ => self.gather_scalar(goal, token),
        }
    }
}
