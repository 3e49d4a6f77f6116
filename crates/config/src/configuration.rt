// The five limits of a reader or writer, with the crate's names and defaults.
ghost use Rattle.std.specs.Prelude.{◌≡◌};
ghost use Rattle.config.specs.Limits.{limits, default_limits, no_limits, limits_of, told_built, built_from};

use crate::limit;
use wire::Result;
use wire::refusal::Kind;

#[derive(Clone, Copy, Debug, PartialEq, Eq)]
pub struct TConfiguration {
    pub max_message_size: Option<usize>,
    pub max_frame_size: Option<usize>,
    pub max_recursion_depth: Option<usize>,
    pub max_container_size: Option<usize>,
    pub max_string_size: Option<usize>,
}

impl TConfiguration {
    pub const DEFAULT_MAX_MESSAGE_SIZE: usize = 104_857_600;

    pub const DEFAULT_MAX_FRAME_SIZE: usize = 16_384_000;

    pub const DEFAULT_RECURSION_LIMIT: usize = 64;

    pub const DEFAULT_CONTAINER_LIMIT: Option<usize> = None;

    pub const DEFAULT_STRING_LIMIT: usize = 104_857_600;

    // The record with no limits. Refuses nothing.
    // Under it the list header 0A 7F FF FF FF gives I64, 2,147,483,647; a struct at depth 65,535 is still refused: 11.
    pub fn no_limits() -> Self
        ensures { result ≡ no_limits }
    {
        TConfiguration {
            max_message_size: None,
            max_frame_size: None,
            max_recursion_depth: None,
            max_container_size: None,
            max_string_size: None,
        }
    }

    // The limits from five numbers, each as `limit::from_number` takes it. Refuses nothing.
    // 1, 2, 3, 4, 5 give message 1, frame 2, struct depth 3, container 4, string 5; that 2 is above 1 is for `build`.
    pub fn from_numbers(
        message: usize,
        frame: usize,
        structs: usize,
        container: usize,
        string: usize,
    ) -> Self
        ensures { result ≡ limits_of message frame structs container string }
    {
        TConfiguration {
            max_message_size: limit::from_number(message),
            max_frame_size: limit::from_number(frame),
            max_recursion_depth: limit::from_number(structs),
            max_container_size: limit::from_number(container),
            max_string_size: limit::from_number(string),
        }
    }

    // The record with this message limit and the other four as they were. Refuses nothing.
    // The default record and a limit of 5 give message 5 and the other four defaults.
    pub fn max_message_size(mut self, limit: Option<usize>) -> Self
        ensures { result ≡ limits limit self.max_frame_size self.max_recursion_depth self.max_container_size self.max_string_size }
    {
        self.max_message_size = limit;
        self
    }

    // The record with this frame limit and the other four as they were. Refuses nothing.
    // The default record and a limit of 5 give frame 5 and the other four defaults.
    pub fn max_frame_size(mut self, limit: Option<usize>) -> Self
        ensures { result ≡ limits self.max_message_size limit self.max_recursion_depth self.max_container_size self.max_string_size }
    {
        self.max_frame_size = limit;
        self
    }

    // The record with this struct depth limit and the other four as they were. Refuses nothing.
    // The default record and a limit of 5 give struct depth 5 and the other four defaults.
    pub fn max_recursion_depth(mut self, limit: Option<usize>) -> Self
        ensures { result ≡ limits self.max_message_size self.max_frame_size limit self.max_container_size self.max_string_size }
    {
        self.max_recursion_depth = limit;
        self
    }

    // The record with this container limit and the other four as they were. Refuses nothing.
    // The default record and a limit of 5 give container 5 and the other four defaults.
    pub fn max_container_size(mut self, limit: Option<usize>) -> Self
        ensures { result ≡ limits self.max_message_size self.max_frame_size self.max_recursion_depth limit self.max_string_size }
    {
        self.max_container_size = limit;
        self
    }

    // The record with this string limit and the other four as they were. Refuses nothing.
    // The default record and a limit of 5 give string 5 and the other four defaults.
    pub fn max_string_size(mut self, limit: Option<usize>) -> Self
        ensures { result ≡ limits self.max_message_size self.max_frame_size self.max_recursion_depth self.max_container_size limit }
    {
        self.max_string_size = limit;
        self
    }

    // The limits to use, unless a frame may be larger than a message. Refuses 19.
    // Frame 5 and message 5 give the record; frame 6 and message 5 are refused: 19 at 0.
    #[tactic(auto, using(crate::proofs::Building::frame_above_lem, crate::proofs::Building::kept))]
    pub fn build(self) -> Result<Self>
        ensures { told_built result ≡ built_from self }
    {
        match self.max_frame_size {
            Some(frame) if limit::exceeded(self.max_message_size, frame) => {
                Err(Kind::FrameAboveMessage.at(0))
            }
            _ => Ok(self),
        }
    }
}

impl Default for TConfiguration {
    ghost is_default = { λ limits. limits ≡ default_limits };

    // The default limits: message 104,857,600, frame 16,384,000, struct depth 64, container none, string 104,857,600.
    // Refuses nothing.
    // Under them the list header 0A 00 C8 00 00 gives I64, 13,107,200; 0A 00 C8 00 01 is refused: 9 at 1.
    fn default() -> Self {
        TConfiguration {
            max_message_size: Some(TConfiguration::DEFAULT_MAX_MESSAGE_SIZE),
            max_frame_size: Some(TConfiguration::DEFAULT_MAX_FRAME_SIZE),
            max_recursion_depth: Some(TConfiguration::DEFAULT_RECURSION_LIMIT),
            max_container_size: TConfiguration::DEFAULT_CONTAINER_LIMIT,
            max_string_size: Some(TConfiguration::DEFAULT_STRING_LIMIT),
        }
    }
}
