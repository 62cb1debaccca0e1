// The services of document 000, section 3, by their numbers.
ghost use Rattle.baos.specs.ServiceNumber.{IsService};

pub const MAIN_SERVICE: u8 = 0xF0;

// The services, by their sub-service numbers in requests; an answer's has 80 more.
#[derive(Clone, Copy, Debug, PartialEq, Eq)]
pub enum Service {
    GetServerItem = 0x01,
    SetServerItem = 0x02,
    GetDatapointDescription = 0x03,
    GetDescriptionString = 0x04,
    GetDatapointValue = 0x05,
    SetDatapointValue = 0x06,
    GetParameterByte = 0x07,
    SetParameterByte = 0x08,
}

// A number that no service has.
#[derive(Clone, Copy, Debug, PartialEq, Eq)]
pub struct NoService;

impl TryFrom<u8> for Service {
    type Error = NoService;

    ghost try_from_gives = { IsService };

    fn try_from(number: u8) -> Result<Self, NoService> {
        match number {
            0x01 => Ok(Service::GetServerItem),
            0x02 => Ok(Service::SetServerItem),
            0x03 => Ok(Service::GetDatapointDescription),
            0x04 => Ok(Service::GetDescriptionString),
            0x05 => Ok(Service::GetDatapointValue),
            0x06 => Ok(Service::SetDatapointValue),
            0x07 => Ok(Service::GetParameterByte),
            0x08 => Ok(Service::SetParameterByte),
            _ => Err(NoService),
        }
    }
}

pub const ANSWER: u8 = 0x80;

// DatapointValue.Ind.
pub const DATAPOINT_VALUE_INDICATION: u8 = 0xC1;

// Main service, sub-service, start and number stand in front of the entries; a request for values has a filter behind
// them; what the longest message has left.
pub const MESSAGE_HEAD: usize = 6;

pub const VALUE_REQUEST: usize = 7;

pub const ROOM_FOR_ENTRIES: usize = 248;

// What stands of an entry in front of its data: ID and length of an item; ID, command and length of a datapoint.
pub const ITEM_ENTRY_HEAD: usize = 3;

pub const DATAPOINT_ENTRY_HEAD: usize = 4;

// "Commands: 0 nothing; 1 value, bit 4 set; 2 status 11; 3 both; 4 bit 2 set; [..]." Command 5 is retired.
pub const SET_VALUE: u8 = 1;

pub const SET_AND_SEND: u8 = 3;

pub const READ: u8 = 4;

pub const LAST_COMMAND: u8 = 4;

// And the last that a closed datapoint takes.
pub const LAST_CLOSED_COMMAND: u8 = 1;
