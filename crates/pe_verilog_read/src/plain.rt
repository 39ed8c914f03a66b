//! The two copies of the rules of items that netlists have too: where each has its rules in the table.

ghost use Rattle.std.specs.Prelude.{◌≡◌, true, false};
ghost use Rattle.pe_verilog_read.specs.Plain.{IsPlain};
ghost use Rattle.pe_verilog_read.specs.declared.verilog_table.TheConstants.{VERILOG};

use crate::verilog_table::{
    AT_ASSIGN, AT_ASSIGN_2, AT_ASSIGN_LIST, AT_ASSIGN_LIST_PART_2_EACH, AT_ASSIGNS, AT_ASSIGNS_2,
    AT_EX, AT_INSTANCE, AT_INSTANCE_2, AT_INSTANCE_3, AT_INSTANCE_LIST,
    AT_INSTANCE_LIST_PART_2_EACH, AT_INSTANCE_PART_3, AT_INSTANCES, AT_INSTANCES_2, AT_INSTANCES_3,
    AT_ITEM, AT_LIST, AT_MODULE, AT_MODULE_2, AT_MODULE_3, AT_MODULE_PART_3, AT_NAMED, AT_NAMED_2,
    AT_NAMED_3, AT_NAMED_4, AT_NAMED_LIST, AT_NAMED_LIST_PART_2_EACH, AT_NAMED_PART_4,
    AT_NET_ASSIGN, AT_NET_ASSIGN_2, AT_NET_ASSIGN_LIST, AT_NET_ASSIGN_LIST_PART_2_EACH,
    AT_NET_ASSIGNS, AT_NET_ASSIGNS_2, AT_NET_INSTANCE, AT_NET_INSTANCE_2, AT_NET_INSTANCE_3,
    AT_NET_INSTANCE_LIST, AT_NET_INSTANCE_LIST_PART_2_EACH, AT_NET_INSTANCE_PART_3,
    AT_NET_INSTANCES, AT_NET_INSTANCES_2, AT_NET_INSTANCES_3, AT_NET_MODULE, AT_NET_MODULE_2,
    AT_NET_MODULE_3, AT_NET_MODULE_PART_3, AT_NET_NAMED, AT_NET_NAMED_2, AT_NET_NAMED_3,
    AT_NET_NAMED_4, AT_NET_NAMED_LIST, AT_NET_NAMED_LIST_PART_2_EACH, AT_NET_NAMED_PART_4,
    AT_NET_PINS, AT_NET_PLAIN, AT_NET_PLAIN_2, AT_NET_PLAIN_3, AT_NET_WIRE, AT_NET_WIRE_LIST,
    AT_NET_WIRE_LIST_PART_2_EACH, AT_NET_WIRE_PART_2, AT_NET_WIRES, AT_NET_WIRES_2, AT_NET_WIRES_3,
    AT_NETLIST, AT_PINS, AT_PLAIN, AT_PLAIN_2, AT_PLAIN_3, AT_RTL, AT_SIMPLE, AT_SIMPLE_LIST,
    AT_WIRE, AT_WIRE_LIST, AT_WIRE_LIST_PART_2_EACH, AT_WIRE_PART_2, AT_WIRES, AT_WIRES_2,
    AT_WIRES_3,
};

/// The places of a copy: of each rule, and with a number behind it of what is left of it from that part on.
#[derive(Clone, Copy)]
pub(crate) struct Plain {
    /// Whether they are those of netlists.
    pub(crate) net: bool,
    pub(crate) text: u16,
    pub(crate) module_1: u16,
    pub(crate) module_2: u16,
    pub(crate) module_3: u16,
    pub(crate) items: u16,
    pub(crate) item: u16,
    pub(crate) plain: u16,
    pub(crate) plain_2: u16,
    pub(crate) plain_3: u16,
    pub(crate) wires: u16,
    pub(crate) wires_2: u16,
    pub(crate) wires_3: u16,
    pub(crate) wire_list: u16,
    pub(crate) wire_each: u16,
    pub(crate) wire: u16,
    pub(crate) initial: u16,
    pub(crate) driven: u16,
    pub(crate) assigns: u16,
    pub(crate) assigns_2: u16,
    pub(crate) assign_list: u16,
    pub(crate) assign_each: u16,
    pub(crate) assign: u16,
    pub(crate) instances: u16,
    pub(crate) instances_2: u16,
    pub(crate) instances_3: u16,
    pub(crate) instance_list: u16,
    pub(crate) instance_each: u16,
    pub(crate) instance: u16,
    pub(crate) instance_2: u16,
    pub(crate) instance_3: u16,
    pub(crate) instance_pins: u16,
    pub(crate) pins: u16,
    pub(crate) named_list: u16,
    pub(crate) named_each: u16,
    pub(crate) named: u16,
    pub(crate) named_2: u16,
    pub(crate) named_3: u16,
    pub(crate) named_4: u16,
    pub(crate) connection: u16,
    pub(crate) value: u16,
    pub(crate) values: u16,
}

/// The rules of RTL.
pub(crate) fn rtl() -> Plain
    ensures plain { IsPlain VERILOG result }
    ensures net { result.net ≡ false }
    ensures text { result.text ≡ AT_RTL }
    ensures pins { result.pins ≡ AT_PINS }
    ensures kinds { result.plain ≡ AT_PLAIN }
{
    Plain {
        net: false,
        text: AT_RTL,
        module_1: AT_MODULE,
        module_2: AT_MODULE_2,
        module_3: AT_MODULE_3,
        items: AT_MODULE_PART_3,
        item: AT_ITEM,
        plain: AT_PLAIN,
        plain_2: AT_PLAIN_2,
        plain_3: AT_PLAIN_3,
        wires: AT_WIRES,
        wires_2: AT_WIRES_2,
        wires_3: AT_WIRES_3,
        wire_list: AT_WIRE_LIST,
        wire_each: AT_WIRE_LIST_PART_2_EACH,
        wire: AT_WIRE,
        initial: AT_WIRE_PART_2,
        driven: AT_ASSIGN_2,
        assigns: AT_ASSIGNS,
        assigns_2: AT_ASSIGNS_2,
        assign_list: AT_ASSIGN_LIST,
        assign_each: AT_ASSIGN_LIST_PART_2_EACH,
        assign: AT_ASSIGN,
        instances: AT_INSTANCES,
        instances_2: AT_INSTANCES_2,
        instances_3: AT_INSTANCES_3,
        instance_list: AT_INSTANCE_LIST,
        instance_each: AT_INSTANCE_LIST_PART_2_EACH,
        instance: AT_INSTANCE,
        instance_2: AT_INSTANCE_2,
        instance_3: AT_INSTANCE_3,
        instance_pins: AT_INSTANCE_PART_3,
        pins: AT_PINS,
        named_list: AT_NAMED_LIST,
        named_each: AT_NAMED_LIST_PART_2_EACH,
        named: AT_NAMED,
        named_2: AT_NAMED_2,
        named_3: AT_NAMED_3,
        named_4: AT_NAMED_4,
        connection: AT_NAMED_PART_4,
        value: AT_EX,
        values: AT_LIST,
    }
}

/// The rules of netlists.
pub(crate) fn netlist() -> Plain
    ensures plain { IsPlain VERILOG result }
    ensures net { result.net ≡ true }
    ensures text { result.text ≡ AT_NETLIST }
    ensures pins { result.pins ≡ AT_NET_PINS }
    ensures kinds { result.plain ≡ AT_NET_PLAIN }
{
    Plain {
        net: true,
        text: AT_NETLIST,
        module_1: AT_NET_MODULE,
        module_2: AT_NET_MODULE_2,
        module_3: AT_NET_MODULE_3,
        items: AT_NET_MODULE_PART_3,
        item: AT_NET_PLAIN,
        plain: AT_NET_PLAIN,
        plain_2: AT_NET_PLAIN_2,
        plain_3: AT_NET_PLAIN_3,
        wires: AT_NET_WIRES,
        wires_2: AT_NET_WIRES_2,
        wires_3: AT_NET_WIRES_3,
        wire_list: AT_NET_WIRE_LIST,
        wire_each: AT_NET_WIRE_LIST_PART_2_EACH,
        wire: AT_NET_WIRE,
        initial: AT_NET_WIRE_PART_2,
        driven: AT_NET_ASSIGN_2,
        assigns: AT_NET_ASSIGNS,
        assigns_2: AT_NET_ASSIGNS_2,
        assign_list: AT_NET_ASSIGN_LIST,
        assign_each: AT_NET_ASSIGN_LIST_PART_2_EACH,
        assign: AT_NET_ASSIGN,
        instances: AT_NET_INSTANCES,
        instances_2: AT_NET_INSTANCES_2,
        instances_3: AT_NET_INSTANCES_3,
        instance_list: AT_NET_INSTANCE_LIST,
        instance_each: AT_NET_INSTANCE_LIST_PART_2_EACH,
        instance: AT_NET_INSTANCE,
        instance_2: AT_NET_INSTANCE_2,
        instance_3: AT_NET_INSTANCE_3,
        instance_pins: AT_NET_INSTANCE_PART_3,
        pins: AT_NET_PINS,
        named_list: AT_NET_NAMED_LIST,
        named_each: AT_NET_NAMED_LIST_PART_2_EACH,
        named: AT_NET_NAMED,
        named_2: AT_NET_NAMED_2,
        named_3: AT_NET_NAMED_3,
        named_4: AT_NET_NAMED_4,
        connection: AT_NET_NAMED_PART_4,
        value: AT_SIMPLE,
        values: AT_SIMPLE_LIST,
    }
}
