// Carrying out a message.
ghost use Rattle.std.specs.Prelude.{◌≡◌, true, ◌+◌, ◌≤◌, length};
ghost use Rattle.baos.specs.Datapoint.{datapoint_id, datapoint_ok};
ghost use Rattle.baos.specs.Item.{item_id, item_ok};
ghost use Rattle.baos.specs.Text.{text_lists, text_lists_ok};
ghost use Rattle.baos.specs.Table.{tables_of, table_ok};
ghost use Rattle.baos.specs.Service.{carried_out};
ghost use Rattle.baos.specs.Inner.Promise.{Carried};

use baos::code::Code;
use baos::datapoint::Datapoint;
use baos::inner::Fault;
use baos::item::Item;
use baos::service::Service;
use gets::get::{get_datapoints, get_items, get_parameters};
use messages::message::{Request, start_of, sub_service_of};
use parameters::parameter::set_parameters;
use sets::set::{set_datapoints, set_items};
use strings::get::get_strings;

// A message carried out: the answer, into the buffer at `at`, or nothing where none is due; answers where it ends.
pub fn carry_out<'a>(
    datapoints: &mut [Datapoint],
    items: &mut [Item],
    parameters: &mut [u8],
    site: &'a [u8],
    defaults: &'a [u8],
    m: &[u8],
    out: &mut [u8],
    at: usize,
) -> usize
    requires { (table_ok 1000 datapoint_id datapoint_ok datapoints.old ≡ true)
        × (table_ok 64 item_id item_ok items.old ≡ true) × (length parameters.old ≤ 255)
        × (text_lists_ok (text_lists site.now defaults.now) ≡ true) × (at + 254 ≤ length out.old)
        × (length m.now ≤ 254) }
    ensures { Carried (carried_out (tables_of datapoints.old items.old
        parameters.old (text_lists site.now defaults.now)) m.now)
        out.old at result out.new datapoints.new items.new
        parameters.new }
{
    let Some(request) = Request::new(m) else {
        return at;
    };
    let Ok(service) = Service::try_from(sub_service_of(request.message)) else {
        let fault = Fault {
            id: start_of(request.message),
            code: Code::ServiceNotSupported,
        };
        return request.put_fault(out, at, fault);
    };
    match service {
        Service::GetServerItem => get_items(items, request, out, at),
        Service::SetServerItem => set_items(items, request, out, at),
        Service::GetDatapointDescription => get_datapoints(datapoints, request, false, out, at),
        Service::GetDescriptionString => get_strings(datapoints, site, defaults, request, out, at),
        Service::GetDatapointValue => get_datapoints(datapoints, request, true, out, at),
        Service::SetDatapointValue => set_datapoints(datapoints, request, out, at),
        Service::GetParameterByte => get_parameters(parameters, request, out, at),
        Service::SetParameterByte => set_parameters(parameters, request, out, at),
    }
}
